// The lines of an OBJ text, judged and taken.
ghost use Rattle.std.specs.Prelude.{◌≡◌, ℕ, None, ◌++◌, ◌∷◌, [], List, map, Ok, OnOk, IfErr, true, false};
ghost use Rattle.std.specs.List.{push};
ghost use Rattle.geo_text.specs.declared.taker.Attributes.{Attributes};
ghost use Rattle.geo_text.specs.ObjStatements.{statement_under, statement_of, reference_of, place_in, texture_in, normal_in, shape_in, Point, Texture, Normal, Checked};
ghost use Rattle.geo_text.specs.ObjMeaning.{map_ok, vector_at, each_of, piece_of, counted_in, no_counts, NoPiece};
ghost use Rattle.geo_text.specs.ObjReferences.{told, reference_said, AreCounts, AreSoFar};
ghost use Rattle.geo_text.specs.ObjSurvey.{key_of};
ghost use Rattle.geo_text.specs.ObjScan.{words_here};
ghost use Rattle.geo_text.specs.ObjRun.{fault_of, statement_as, vertex_said, vertices_by, IsRefused, Taking, taken_by, taking_seen, groups_seen, flags_seen};

use crate::groups::Groups;
use crate::reference::{Counts, ReferenceWord, WordFault, next_reference, read_reference};
use crate::scan::next_word;
use crate::taker::{ObjTaker, Vertex};
use crate::totals::Totals;
use crate::vectors::{normal_in, place_in, texture_in};
use crate::zero::zero_vector;
use sop_fixed::Vec3;
use std::alloc::{AllocError, Global};

/// What a line is about, by its first word.
#[derive(Clone, Copy, Debug)]
pub(crate) enum Keyword {
    Point,
    Texture,
    Normal,
    Closed,
    Open,
    Check,
    Groups,
    Other,
}

/// Why a line isn't taken.
#[derive(Clone, Copy, Debug)]
pub(crate) enum LineFault {
    /// A word isn't the number that is wanted.
    Number,
    /// A reference names no element.
    Index,
    /// There wasn't memory enough.
    Memory,
}

impl From<AllocError> for LineFault {
    ghost use Rattle.geo_text.specs.declared.reader.LineFault.TheVariants.{Memory};

    ghost from_gives = { λ _ fault. fault ≡ Memory };

    fn from(_: AllocError) -> Self {
        LineFault::Memory
    }
}

fn fault_of(fault: WordFault) -> LineFault
    ensures { result ≡ fault_of fault }
{
    match fault {
        WordFault::Number => LineFault::Number,
        WordFault::Index => LineFault::Index,
    }
}

/// What a line is about whose first word is this.
pub(crate) fn keyword_of(word: &[u8]) -> Keyword
    ensures key { result ≡ key_of word.now }
    ensures statement { (words : List (List ℕ)) → statement_under word.now words ≡ statement_as result words }
{
    match word {
        b"v" => Keyword::Point,
        b"vt" => Keyword::Texture,
        b"vn" => Keyword::Normal,
        b"f" => Keyword::Closed,
        b"l" => Keyword::Open,
        b"p" => Keyword::Check,
        b"g" => Keyword::Groups,
        _ => Keyword::Other,
    }
}

/// The vector of a number, and zero where there is none.
fn vector_at(vectors: &[Vec3], element: Option<usize>) -> Vec3
    ensures { result ≡ vector_at vectors.now element }
{
    match element {
        None => zero_vector(),
        Some(i) => vectors.get(i).copied().unwrap_or(zero_vector()),
    }
}

/// The vertex that a word means, where so many elements stand before its line.
fn read_vertex(
    word: ReferenceWord<'_>,
    totals: &Totals,
    so_far: &Counts,
) -> Result<Vertex, WordFault>
    requires totals { AreCounts totals.now.counts }
    requires so_far { AreSoFar totals.now.counts so_far.now }
    ensures { (line : ℕ) → told line result ≡ vertex_said line totals.now.counts so_far.now totals.now.textures.items totals.now.normals.items (reference_said word.entry) }
{
    let named = read_reference(word, &totals.counts, so_far)?;
    Ok(Vertex {
        point: named.point as u32,
        texture: vector_at(&totals.textures, named.texture),
        normal: vector_at(&totals.normals, named.normal),
    })
}

/// Puts the vertex that a word means behind others.
fn add_vertex(
    word: ReferenceWord<'_>,
    totals: &Totals,
    so_far: &Counts,
    vertices: &mut Vec<Vertex>,
) -> Result<(), LineFault>
    requires totals { AreCounts totals.now.counts }
    requires so_far { AreSoFar totals.now.counts so_far.now }
    ensures ok { OnOk result ((line : ℕ) → map_ok (push vertices.old.items) (vertex_said line totals.now.counts so_far.now totals.now.textures.items totals.now.normals.items (reference_said word.entry)) ≡ Ok vertices.new.items) }
    ensures err { IfErr result (λ f. (line : ℕ) → IsRefused line f (vertex_said line totals.now.counts so_far.now totals.now.textures.items totals.now.normals.items (reference_said word.entry))) }
{
    match read_vertex(word, totals, so_far) {
        Ok(vertex) => match vertices.push(vertex) {
            Ok(()) => Ok(()),
            Err(_) => Err(LineFault::Memory),
        },
        Err(fault) => Err(fault_of(fault)),
    }
}

/// The vertices that the words of a line mean, in place of those that were there.
fn read_vertices(
    words: &[u8],
    totals: &Totals,
    so_far: &Counts,
    vertices: &mut Vec<Vertex>,
) -> Result<(), LineFault>
    requires totals { AreCounts totals.now.counts }
    requires so_far { AreSoFar totals.now.counts so_far.now }
    ensures ok { OnOk result ((line : ℕ) → vertices_by line totals.now.counts so_far.now totals.now.textures.items totals.now.normals.items (words_here words.now) ≡ Ok vertices.new.items) }
    ensures err { IfErr result (λ f. (line : ℕ) → IsRefused line f (vertices_by line totals.now.counts so_far.now totals.now.textures.items totals.now.normals.items (words_here words.now))) }
{
    vertices.clear();
    let mut rest = words;
    while let Some((word, more)) = next_reference(rest) {
        add_vertex(word, totals, so_far, vertices)?;
        rest = more;
    }
    Ok(())
}

/// What stands before a line.
#[derive(Debug, Drop)]
pub(crate) struct State<'a> {
    /// How many elements there are.
    pub(crate) so_far: Counts,
    /// The groups of the primitives that follow.
    pub(crate) groups: Groups<'a>,
    /// The vertices of one line, kept for their room.
    pub(crate) vertices: Vec<Vertex>,
}

impl<'a> State<'a> {
    /// What stands before the first line. It takes no memory.
    pub(crate) fn new(alloc: Global) -> State<'a>
        ensures so_far { result.so_far ≡ no_counts }
        ensures groups { groups_seen result.groups ≡ [] }
        ensures flags { flags_seen result.groups ≡ None }
    {
        State {
            so_far: Counts {
                points: 0,
                textures: 0,
                normals: 0,
            },
            groups: Groups::none(alloc),
            vertices: Vec::new(alloc),
        }
    }

    fn take_point<T: ObjTaker>(
        &mut self,
        words: &[u8],
        totals: &Totals,
        taker: &mut T,
    ) -> Result<(), LineFault>
        requires totals { AreCounts totals.now.counts }
        requires so_far { AreSoFar totals.now.counts (counted_in (Point (place_in (words_here words.now))) self.old.so_far) }
        ensures attributes { OnOk result (T.attributes taker.new ≡ T.attributes taker.old) }
        ensures taken { OnOk result ((line : ℕ) → taken_by line (T.attributes taker.old) totals.now self.old.so_far (Point (place_in (words_here words.now))) (taking_seen (T.taken taker.old) self.old.groups) ≡ Ok (taking_seen (T.taken taker.new) self.new.groups)) }
        ensures so_far { OnOk result (self.new.so_far ≡ counted_in (Point (place_in (words_here words.now))) self.old.so_far) }
        ensures err { IfErr result (λ f. (line : ℕ) → IsRefused line f (piece_of line totals.now.counts self.old.so_far (Point (place_in (words_here words.now))))) }
    {
        let Some((place, colour)) = place_in(words) else {
            return Err(LineFault::Number);
        };
        taker.take_point(place, colour)?;
        self.so_far.points += 1;
        Ok(())
    }

    fn judge_texture(&mut self, words: &[u8], totals: &Totals) -> Result<(), LineFault>
        requires totals { AreCounts totals.now.counts }
        requires so_far { AreSoFar totals.now.counts (counted_in (Texture (texture_in (words_here words.now))) self.old.so_far) }
        ensures groups { self.new.groups ≡ self.old.groups }
        ensures taken { OnOk result ((line : ℕ) (has : Attributes) (t : Taking) → taken_by line has totals.now self.old.so_far (Texture (texture_in (words_here words.now))) t ≡ Ok t) }
        ensures so_far { OnOk result (self.new.so_far ≡ counted_in (Texture (texture_in (words_here words.now))) self.old.so_far) }
        ensures err { IfErr result (λ f. (line : ℕ) → IsRefused line f (piece_of line totals.now.counts self.old.so_far (Texture (texture_in (words_here words.now))))) }
    {
        if texture_in(words).is_none() {
            return Err(LineFault::Number);
        }
        self.so_far.textures += 1;
        Ok(())
    }

    fn judge_normal(&mut self, words: &[u8], totals: &Totals) -> Result<(), LineFault>
        requires totals { AreCounts totals.now.counts }
        requires so_far { AreSoFar totals.now.counts (counted_in (Normal (normal_in (words_here words.now))) self.old.so_far) }
        ensures groups { self.new.groups ≡ self.old.groups }
        ensures taken { OnOk result ((line : ℕ) (has : Attributes) (t : Taking) → taken_by line has totals.now self.old.so_far (Normal (normal_in (words_here words.now))) t ≡ Ok t) }
        ensures so_far { OnOk result (self.new.so_far ≡ counted_in (Normal (normal_in (words_here words.now))) self.old.so_far) }
        ensures err { IfErr result (λ f. (line : ℕ) → IsRefused line f (piece_of line totals.now.counts self.old.so_far (Normal (normal_in (words_here words.now))))) }
    {
        if normal_in(words).is_none() {
            return Err(LineFault::Number);
        }
        self.so_far.normals += 1;
        Ok(())
    }

    fn judge_references(&mut self, words: &[u8], totals: &Totals) -> Result<(), LineFault>
        requires totals { AreCounts totals.now.counts }
        requires so_far { AreSoFar totals.now.counts self.old.so_far }
        ensures groups { self.new.groups ≡ self.old.groups }
        ensures so_far { self.new.so_far ≡ self.old.so_far }
        ensures taken { OnOk result ((line : ℕ) (has : Attributes) (t : Taking) → taken_by line has totals.now self.old.so_far (Checked (map reference_of (words_here words.now))) t ≡ Ok t) }
        ensures err { IfErr result (λ f. (line : ℕ) → IsRefused line f (piece_of line totals.now.counts self.old.so_far (Checked (map reference_of (words_here words.now))))) }
    {
        read_vertices(words, totals, &self.so_far, &mut self.vertices)
    }

    fn take_shape<T: ObjTaker>(
        &mut self,
        alloc: Global,
        closed: bool,
        words: &[u8],
        totals: &Totals,
        taker: &mut T,
    ) -> Result<(), LineFault>
        requires totals { AreCounts totals.now.counts }
        requires so_far { AreSoFar totals.now.counts self.old.so_far }
        ensures attributes { OnOk result (T.attributes taker.new ≡ T.attributes taker.old) }
        ensures taken { OnOk result ((line : ℕ) → taken_by line (T.attributes taker.old) totals.now self.old.so_far (shape_in closed (words_here words.now)) (taking_seen (T.taken taker.old) self.old.groups) ≡ Ok (taking_seen (T.taken taker.new) self.new.groups)) }
        ensures so_far { self.new.so_far ≡ self.old.so_far }
        ensures err { IfErr result (λ f. (line : ℕ) → IsRefused line f (piece_of line totals.now.counts self.old.so_far (shape_in closed (words_here words.now)))) }
    {
        if let Err(fault) = read_vertices(words, totals, &self.so_far, &mut self.vertices) {
            return Err(fault);
        }
        if self.vertices.as_slice().is_empty() {
            return Ok(());
        }
        self.groups.find(alloc, taker)?;
        taker.take_prim(closed, &self.vertices, &self.groups.flags)?;
        Ok(())
    }

    /// Judges the words behind a keyword, and takes what they say.
    fn read_statement<T: ObjTaker>(
        &mut self,
        alloc: Global,
        keyword: Keyword,
        words: &'a [u8],
        totals: &Totals,
        taker: &mut T,
    ) -> Result<(), LineFault>
        requires totals { AreCounts totals.now.counts }
        requires so_far { AreSoFar totals.now.counts (counted_in (statement_as keyword (words_here words.now)) self.old.so_far) }
        ensures attributes { OnOk result (T.attributes taker.new ≡ T.attributes taker.old) }
        ensures taken { OnOk result ((line : ℕ) → taken_by line (T.attributes taker.old) totals.now self.old.so_far (statement_as keyword (words_here words.now)) (taking_seen (T.taken taker.old) self.old.groups) ≡ Ok (taking_seen (T.taken taker.new) self.new.groups)) }
        ensures so_far { OnOk result (self.new.so_far ≡ counted_in (statement_as keyword (words_here words.now)) self.old.so_far) }
        ensures err { IfErr result (λ f. (line : ℕ) → IsRefused line f (piece_of line totals.now.counts self.old.so_far (statement_as keyword (words_here words.now)))) }
    {
        match keyword {
            Keyword::Point => self.take_point(words, totals, taker),
            Keyword::Texture => self.judge_texture(words, totals),
            Keyword::Normal => self.judge_normal(words, totals),
            Keyword::Closed => self.take_shape(alloc, true, words, totals, taker),
            Keyword::Open => self.take_shape(alloc, false, words, totals, taker),
            Keyword::Check => self.judge_references(words, totals),
            Keyword::Groups => {
                self.groups.begin(words);
                Ok(())
            }
            Keyword::Other => Ok(()),
        }
    }

    /// Judges a line, and takes what it says.
    pub(crate) fn read_line<T: ObjTaker>(
        &mut self,
        alloc: Global,
        line: &'a [u8],
        totals: &Totals,
        taker: &mut T,
    ) -> Result<(), LineFault>
        requires totals { AreCounts totals.now.counts }
        requires so_far { AreSoFar totals.now.counts (counted_in (statement_of (words_here line.now)) self.old.so_far) }
        ensures attributes { OnOk result (T.attributes taker.new ≡ T.attributes taker.old) }
        ensures taken { OnOk result ((number : ℕ) → taken_by number (T.attributes taker.old) totals.now self.old.so_far (statement_of (words_here line.now)) (taking_seen (T.taken taker.old) self.old.groups) ≡ Ok (taking_seen (T.taken taker.new) self.new.groups)) }
        ensures so_far { OnOk result (self.new.so_far ≡ counted_in (statement_of (words_here line.now)) self.old.so_far) }
        ensures err { IfErr result (λ f. (number : ℕ) → IsRefused number f (piece_of number totals.now.counts self.old.so_far (statement_of (words_here line.now)))) }
    {
        match next_word(line) {
            None => Ok(()),
            Some((word, words)) => {
                self.read_statement(alloc, keyword_of(word), words, totals, taker)
            }
        }
    }
}
