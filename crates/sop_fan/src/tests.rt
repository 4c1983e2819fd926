use super::*;
use sop_outside::{Gate, OpenGate};
use std::alloc::Global;
use std::sync::atomic::{AtomicBool, Ordering};
use std::test::Fail;

// Numbers that can be read while there are few of them.
trait Numbers {
    ghost use Rattle.std.specs.Prelude.{◌≡◌, ◌<◌, ℕ, List, length, slice_index};
    ghost use Rattle.sop_fan.specs.Doubles.{AreReadable};

    ghost numbers: { Self → List ℕ };

    fn number(&self, i: u32) -> u32
        requires readable { AreReadable (numbers self.now) }
        requires in_range { i < length (numbers self.now) }
        ensures { result ≡ slice_index (numbers self.now) i };
}

#[derive(Drop)]
struct Few {
    items: [u32; 5],
}

impl Numbers for Few {
    ghost numbers = { λ few. few.items };

    fn number(&self, i: u32) -> u32 {
        self.items[i as usize]
    }
}

// Twice the numbers of a view, `width` of them a ticket. A ticket whose first number is 0 is faulty, and the
// fault is that number's place.
#[derive(Drop)]
struct Doubles<'a, V: Numbers + Sync> {
    view: &'a V,
    width: u32,
    alloc: Global,
}

impl<'a, V: Numbers + Sync> Job for Doubles<'a, V> {
    type Out = Vec<u64>;

    type Fault = u32;

    ghost use Rattle.sop_fan.specs.Doubles.{CanDouble, double_fault, AreDoubles};

    ghost ready = { λ job k. CanDouble (V.numbers job.view.now) job.width k };

    ghost fault = { λ job k. double_fault (V.numbers job.view.now) job.width k };

    ghost admits = { λ job k out. AreDoubles (V.numbers job.view.now) job.width k out.items };

    fn run(&self, k: u32) -> Result<Vec<u64>, Stop<u32>> {
        let first = k * self.width;
        if self.view.number(first) == 0 {
            return Err(Stop::Fault(first));
        }
        let mut doubles = Vec::new(self.alloc);
        for i in 0..self.width {
            doubles.push(2 * u64::from(self.view.number(first + i)))?;
        }
        Ok(doubles)
    }
}

#[test]
fn gathers_in_order(rt: HostRuntime) -> Result<(), Fail> {
    let view = Few {
        items: [1, 2, 3, 4, 5],
    };
    let job = Doubles {
        view: &view,
        width: 2,
        alloc: rt.alloc(),
    };
    let outs = gather(&rt, rt.alloc(), 2, 2, &OpenGate, &job)?;
    for (out, wanted) in outs.iter().zip([[2, 4], [6, 8]]) {
        assert!(rt; out.as_slice() == wanted.as_slice());
    }
    Ok(())
}

#[test]
fn tells_the_least_fault(rt: HostRuntime) {
    let view = Few {
        items: [1, 0, 0, 4, 5],
    };
    let job = Doubles {
        view: &view,
        width: 1,
        alloc: rt.alloc(),
    };
    let found = gather(&rt, rt.alloc(), 2, 5, &OpenGate, &job);
    assert!(rt; matches!(&found, Err(FanEnd::Fault(1, 1))));
}

// Holds ticket 0 until ticket 1 has entered, for a bounded time.
#[derive(Drop)]
struct HoldFirst {
    second: AtomicBool,
    gave_up: AtomicBool,
}

const TURNS: u32 = 200_000_000;

impl Gate for HoldFirst {
    fn enter(&self, ticket: u32) {
        if ticket == 1 {
            self.second.store(true, Ordering::SeqCst);
        }
        if ticket == 0 {
            for _ in 0..TURNS {
                if self.second.load(Ordering::SeqCst) {
                    return;
                }
            }
            self.gave_up.store(true, Ordering::SeqCst);
        }
    }
}

// Two workers work at once: the second enters while the first is held.
#[test]
fn works_side_by_side(rt: HostRuntime) -> Result<(), Fail> {
    let gate = HoldFirst {
        second: AtomicBool::new(false),
        gave_up: AtomicBool::new(false),
    };
    let view = Few {
        items: [1, 2, 3, 4, 5],
    };
    let job = Doubles {
        view: &view,
        width: 1,
        alloc: rt.alloc(),
    };
    let outs = gather(&rt, rt.alloc(), 2, 5, &gate, &job)?;
    assert_eq!(rt; outs.len(), 5);
    assert!(rt; !gate.gave_up.load(Ordering::SeqCst));
    Ok(())
}
