// Checksums.

/// A checksum of one number more. It depends on their order.
pub fn added(sum: u64, number: u64) -> u64 {
    sum.wrapping_mul(31).wrapping_add(number)
}
