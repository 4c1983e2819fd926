// What the lines of an OBJ text have, counted before they are judged.
ghost use Rattle.sop_model.specs.Values.{zero_vector};
ghost use Rattle.std.specs.Prelude.{◌≡◌, ◌++◌, ◌∷◌, [], false, ◌+◌, ◌||◌, ◌<◌, ◌≤◌, length, unwrap_or, OnOk, IfOk, IfErr};
ghost use Rattle.std.specs.List.{list_any};
ghost use Rattle.geo_text.specs.ObjLines.{joined};
ghost use Rattle.geo_text.specs.ObjScan.{words_here};
ghost use Rattle.geo_text.specs.ObjReferences.{reference_said};
ghost use Rattle.geo_text.specs.ObjSurvey.{Seen, nothing_seen, is_there, has_texture, has_normal, seen_as, point_seen, shape_seen, line_seen, all_seen, worded, survey_seen, is_past, IsPast};

use crate::obj_fault::ObjFault;
use crate::reader::{Keyword, keyword_of};
use crate::reference::{Counts, ReferenceWord, next_reference, parts_behind};
use crate::scan::{next_line, next_word};
use crate::taker::{Attributes, Room};
use crate::totals::Totals;
use crate::vectors::{has_six, normal_in, texture_in};
use crate::zero::zero_vector;
use sop_fixed::Vec3;
use sop_model::limits::{MOST_POINTS, MOST_PRIMS, MOST_VERTICES};
use std::alloc::{AllocError, Global};

/// What some lines have.
#[derive(Debug, Drop)]
pub(crate) struct Survey {
    /// The `v` lines.
    pub(crate) points: usize,
    /// The `f` and `l` lines with a reference.
    pub(crate) prims: usize,
    /// Their references.
    pub(crate) vertices: usize,
    /// The attributes that the lines give.
    pub(crate) attributes: Attributes,
    /// The texture coordinates, and zero for a line in which a word isn't the numeral that is wanted.
    pub(crate) textures: Vec<Vec3>,
    /// The normals in the same way.
    pub(crate) normals: Vec<Vec3>,
}

/// What some references have.
#[derive(Clone, Copy)]
struct References {
    count: usize,
    texture: bool,
    normal: bool,
}

impl References {
    /// With one more.
    fn with(self, word: ReferenceWord<'_>) -> References
        requires { self.count < usize.MAX }
        ensures count { result.count ≡ self.count + 1 }
        ensures texture { result.texture ≡ (self.texture || is_there (reference_said word.entry).texture) }
        ensures normal { result.normal ≡ (self.normal || is_there (reference_said word.entry).normal) }
    {
        let count = self.count + 1;
        if self.texture && self.normal {
            return References { count, ..self };
        }
        let (texture, normal) = parts_behind(word);
        References {
            count,
            texture: self.texture || texture,
            normal: self.normal || normal,
        }
    }
}

/// What the references of a line have, and whether there was a texture coordinate or a normal before them.
fn references_in(words: &[u8], has: Attributes) -> References
    ensures count { result.count ≡ length (words_here words.now) }
    ensures texture { result.texture ≡ (has.texture || list_any has_texture (words_here words.now)) }
    ensures normal { result.normal ≡ (has.normal || list_any has_normal (words_here words.now)) }
{
    let mut references = References {
        count: 0,
        texture: has.texture,
        normal: has.normal,
    };
    let mut rest = words;
    while let Some((word, more)) = next_reference(rest) {
        references = references.with(word);
        rest = more;
    }
    references
}

impl Survey {
    /// Of no line. It takes no memory.
    pub(crate) fn new(alloc: Global) -> Survey
        ensures { survey_seen result ≡ nothing_seen }
    {
        Survey {
            points: 0,
            prims: 0,
            vertices: 0,
            attributes: Attributes {
                colour: false,
                texture: false,
                normal: false,
            },
            textures: Vec::new(alloc),
            normals: Vec::new(alloc),
        }
    }

    /// How many elements of a geometry there are.
    pub(crate) fn room(&self) -> Room {
        Room {
            points: self.points,
            prims: self.prims,
            vertices: self.vertices,
        }
    }

    /// What a whole text has, of which these are all lines.
    pub(crate) fn into_totals(self) -> Totals
        ensures counts { result.counts ≡ record { points = self.points; textures = length self.textures.items; normals = length self.normals.items } }
        ensures attributes { result.attributes ≡ self.attributes }
        ensures textures { result.textures.items ≡ self.textures.items }
        ensures normals { result.normals.items ≡ self.normals.items }
        ensures most { (result.counts.textures < usize.MAX) × (result.counts.normals < usize.MAX) }
    {
        let Survey {
            points,
            prims: _,
            vertices: _,
            attributes,
            textures,
            normals,
        } = self;
        Totals {
            counts: Counts {
                points,
                textures: textures.as_slice().len(),
                normals: normals.as_slice().len(),
            },
            attributes,
            textures,
            normals,
        }
    }

    fn add_point(&mut self, words: &[u8]) -> Result<(), ObjFault>
        requires { is_past (survey_seen self.old) ≡ false }
        ensures seen { OnOk result (survey_seen self.new ≡ point_seen (words_here words.now) (survey_seen self.old)) }
        ensures within { OnOk result (is_past (survey_seen self.new) ≡ false) }
        ensures err { IfErr result (λ f. IsPast f (point_seen (words_here words.now) (survey_seen self.old))) }
    {
        if self.points == MOST_POINTS {
            return Err(ObjFault::Limit);
        }
        self.points += 1;
        self.attributes.colour = self.attributes.colour || has_six(words);
        Ok(())
    }

    fn add_shape(&mut self, words: &[u8]) -> Result<(), ObjFault>
        requires { is_past (survey_seen self.old) ≡ false }
        ensures seen { OnOk result (survey_seen self.new ≡ shape_seen (words_here words.now) (survey_seen self.old)) }
        ensures within { OnOk result (is_past (survey_seen self.new) ≡ false) }
        ensures err { IfErr result (λ f. IsPast f (shape_seen (words_here words.now) (survey_seen self.old))) }
    {
        let references = references_in(words, self.attributes);
        if references.count == 0 {
            return Ok(());
        }
        if self.prims == MOST_PRIMS || references.count > MOST_VERTICES - self.vertices {
            return Err(ObjFault::Limit);
        }
        self.prims += 1;
        self.vertices += references.count;
        self.attributes.texture = references.texture;
        self.attributes.normal = references.normal;
        Ok(())
    }

    /// Counts what the words behind a keyword have.
    fn add_words(&mut self, keyword: Keyword, words: &[u8]) -> Result<(), ObjFault>
        requires { is_past (survey_seen self.old) ≡ false }
        ensures seen { OnOk result (survey_seen self.new ≡ seen_as keyword (words_here words.now) (survey_seen self.old)) }
        ensures within { OnOk result (is_past (survey_seen self.new) ≡ false) }
        ensures err { IfErr result (λ f. IsPast f (seen_as keyword (words_here words.now) (survey_seen self.old))) }
    {
        match keyword {
            Keyword::Point => self.add_point(words),
            Keyword::Texture => add_vector(&mut self.textures, texture_in(words)),
            Keyword::Normal => add_vector(&mut self.normals, normal_in(words)),
            Keyword::Closed | Keyword::Open => self.add_shape(words),
            _ => Ok(()),
        }
    }

    fn add_line(&mut self, line: &[u8]) -> Result<(), ObjFault>
        requires { is_past (survey_seen self.old) ≡ false }
        ensures seen { OnOk result (survey_seen self.new ≡ line_seen (words_here line.now) (survey_seen self.old)) }
        ensures within { OnOk result (is_past (survey_seen self.new) ≡ false) }
        ensures err { IfErr result (λ f. IsPast f (line_seen (words_here line.now) (survey_seen self.old))) }
    {
        match next_word(line) {
            None => Ok(()),
            Some((word, words)) => self.add_words(keyword_of(word), words),
        }
    }
}

/// What the lines of a text have. `Limit` where they have more elements than a geometry may have.
pub(crate) fn survey_lines(alloc: Global, text: &[u8]) -> Result<Survey, ObjFault>
    ensures seen { IfOk result (λ s. survey_seen s ≡ all_seen (worded (joined text.now)) nothing_seen) }
    ensures within { IfOk result (λ s. is_past (survey_seen s) ≡ false) }
    ensures err { IfErr result (λ f. IsPast f (all_seen (worded (joined text.now)) nothing_seen)) }
{
    let mut survey = Survey::new(alloc);
    let mut left = Some(text);
    while let Some(line) = left {
        if let Err(fault) = survey.add_line(line) {
            return Err(fault);
        }
        left = next_line(line);
    }
    Ok(survey)
}

/// Puts a vector behind others, or zero where there is none.
fn add_vector(vectors: &mut Vec<Vec3>, vector: Option<Vec3>) -> Result<(), ObjFault>
    ensures ok { OnOk result (vectors.new.items ≡ vectors.old.items ++ unwrap_or vector zero_vector ∷ []) }
    ensures err { IfErr result (λ f. f ≡ ObjFault.Memory) }
{
    match vectors.push(vector.unwrap_or(zero_vector())) {
        Ok(()) => Ok(()),
        Err(_) => Err(ObjFault::Memory),
    }
}
