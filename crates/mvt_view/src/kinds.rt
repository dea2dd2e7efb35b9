//! The kinds of notes and findings: their numbers in `mvt.h`, and what each means in plain words.
ghost use Rattle.std.specs.Prelude.{◌≡◌, ◌++◌, ◌∷◌, [], None, IfSome};
ghost use Rattle.mvt_view.specs.Kinds.{finding_number, finding_sentence, kind_of_finding, kind_of_note, note_number, note_sentence};

use mvt_tile::{Finding, Note};

/// What is noted of a tile that is accepted.
#[derive(Clone, Copy, Debug, PartialEq, Eq)]
pub enum NoteKind {
    NoLayers,
    Foreign,
    NoFeatures,
    RepeatedId,
    FlatRing,
    ClosedTwice,
}

impl NoteKind {
    /// The kind of a note.
    pub fn of(note: Note) -> Self
        ensures { result ≡ kind_of_note note }
    {
        match note {
            Note::NoLayers => NoteKind::NoLayers,
            Note::Foreign(..) => NoteKind::Foreign,
            Note::NoFeatures(_) => NoteKind::NoFeatures,
            Note::RepeatedId(..) => NoteKind::RepeatedId,
            Note::FlatRing(..) => NoteKind::FlatRing,
            Note::ClosedTwice(..) => NoteKind::ClosedTwice,
        }
    }

    /// The kind of a number; `None` if none has it.
    pub fn of_number(number: u32) -> Option<Self>
        ensures given { IfSome result (λ kind. note_number kind ≡ number) }
        ensures unknown { result ≡ None → (kind : NoteKind) → note_number kind ≡ number → ⊥ }
    {
        Some(match number {
            1 => NoteKind::NoLayers,
            2 => NoteKind::Foreign,
            3 => NoteKind::NoFeatures,
            4 => NoteKind::RepeatedId,
            5 => NoteKind::FlatRing,
            6 => NoteKind::ClosedTwice,
            _ => return None,
        })
    }

    /// Its number in `mvt.h`.
    pub fn number(self) -> u32
        ensures { result ≡ note_number self }
    {
        match self {
            NoteKind::NoLayers => 1,
            NoteKind::Foreign => 2,
            NoteKind::NoFeatures => 3,
            NoteKind::RepeatedId => 4,
            NoteKind::FlatRing => 5,
            NoteKind::ClosedTwice => 6,
        }
    }

    /// When it is noted, with a zero at the end, for C.
    #[tactic(auto, unfolding(crate::specs::Kinds::note_sentence))]
    pub fn sentence_with_zero(self) -> &'static str
        ensures { result.now ≡ note_sentence self ++ 0 ∷ [] }
    {
        match self {
            NoteKind::NoLayers => "The tile has no layer.\0",
            NoteKind::Foreign => {
                "A layer of another version than 2, which is carried as its bytes.\0"
            }
            NoteKind::NoFeatures => "A layer has no feature.\0",
            NoteKind::RepeatedId => "A feature has the id of an earlier one of its layer.\0",
            NoteKind::FlatRing => "A ring's area is 0.\0",
            NoteKind::ClosedTwice => {
                "A ring's last point equals its first, though ClosePath closes it.\0"
            }
        }
    }
}

/// What viewers stumble over in a valid tile.
#[derive(Clone, Copy, Debug, PartialEq, Eq)]
pub enum FindingKind {
    ZeroExtent,
    NoGeometry,
    UnknownGeometry,
    FarPoint,
    LargeId,
    LargeNumber,
}

impl FindingKind {
    /// The kind of a finding.
    pub fn of(finding: Finding) -> Self
        ensures { result ≡ kind_of_finding finding }
    {
        match finding {
            Finding::ZeroExtent(_) => FindingKind::ZeroExtent,
            Finding::NoGeometry(..) => FindingKind::NoGeometry,
            Finding::UnknownGeometry(..) => FindingKind::UnknownGeometry,
            Finding::FarPoint(..) => FindingKind::FarPoint,
            Finding::LargeId(..) => FindingKind::LargeId,
            Finding::LargeNumber(..) => FindingKind::LargeNumber,
        }
    }

    /// The kind of a number; `None` if none has it.
    pub fn of_number(number: u32) -> Option<Self>
        ensures given { IfSome result (λ kind. finding_number kind ≡ number) }
        ensures unknown { result ≡ None → (kind : FindingKind) → finding_number kind ≡ number → ⊥ }
    {
        Some(match number {
            1 => FindingKind::ZeroExtent,
            2 => FindingKind::NoGeometry,
            3 => FindingKind::UnknownGeometry,
            4 => FindingKind::FarPoint,
            5 => FindingKind::LargeId,
            6 => FindingKind::LargeNumber,
            _ => return None,
        })
    }

    /// Its number in `mvt.h`.
    pub fn number(self) -> u32
        ensures { result ≡ finding_number self }
    {
        match self {
            FindingKind::ZeroExtent => 1,
            FindingKind::NoGeometry => 2,
            FindingKind::UnknownGeometry => 3,
            FindingKind::FarPoint => 4,
            FindingKind::LargeId => 5,
            FindingKind::LargeNumber => 6,
        }
    }

    /// When it is told and what happens in which viewer, with a zero at the end, for C.
    #[tactic(auto, unfolding(crate::specs::Kinds::finding_sentence))]
    pub fn sentence_with_zero(self) -> &'static str
        ensures { result.now ≡ finding_sentence self ++ 0 ∷ [] }
    {
        match self {
            FindingKind::ZeroExtent => {
                "A layer's extent is 0. Mapbox GL and QGIS draw no line and no polygon of the \
                    layer, QGIS no point either.\0"
            }
            FindingKind::NoGeometry => {
                "A feature of unknown type has no integers. A line layer of Mapbox GL ends the \
                    whole viewer.\0"
            }
            FindingKind::UnknownGeometry => {
                "A feature of unknown type has integers. Mapbox GL drops the whole tile, or draws \
                    the integers of a point as a circle; QGIS draws nothing.\0"
            }
            FindingKind::FarPoint => {
                "The first position of the feature that leaves 16 bits (-32768 to 32767) in \
                    8192ths of the extent, rounded to the nearest, halves away from 0; none in a \
                    layer whose extent is 0. Mapbox GL leaves the position out, so a line or a \
                    polygon has another shape; if a point is left out, a line layer ends the \
                    whole viewer.\0"
            }
            FindingKind::LargeId => {
                "An id is beyond 2^53 - 1. The feature is drawn, but JavaScript can't tell the id \
                    from its neighbours.\0"
            }
            FindingKind::LargeNumber => {
                "An int, a uint or a sint is beyond 2^53 - 1 to either side. The feature is drawn, \
                    but JavaScript can't tell the number from its neighbours.\0"
            }
        }
    }
}
