//! Laws of the definitions. Each is the contract of a function that does nothing.

ghost use Rattle.std.specs.Prelude.{All, Err, List, Ok, [], take, ℕ, ◌++◌, ◌↔◌, ◌∷◌, ◌≡◌, ◌⊎◌};
ghost use Rattle.tl_layout.specs.Limits.{IsWithinLimit};
ghost use Rattle.tl_layout.specs.RecordText.{FitsRecord, text_of};
ghost use Rattle.tl_layout.specs.declared.record_type.Record.{Record};
ghost use Rattle.tl_load.specs.LineOf.{IsFaultIn, IsLineOf, judged_as};
ghost use Rattle.tl_load.specs.Outcome.{FaultAt, IsFaulty, IsSpelled, Spells, SpellsWithin};
ghost use Rattle.tl_load.specs.Choice.{tiger};
ghost use Rattle.tl_load.specs.Lines.{HaveSameLines};
ghost use Rattle.tl_load.specs.RecordLine.{HasRecord, IsFaultOfLine};
ghost use Rattle.tl_load.specs.Verdicts.{without_place};
ghost use Rattle.tl_load.specs.declared.fault.LineFault.{LineFault};
ghost use Rattle.tl_load.specs.declared.fault.LoadFault.{LoadFault};

use tl_layout::Layout;

/// Parts either spell one list of records with at most limit of each type and have no fault, or they spell none and have
/// exactly one fault.
pub fn spelled_or_one_fault()
    ensures { (limit : ℕ) (parts : List (List ℕ)) → IsSpelled tiger limit parts ⊎ IsFaulty tiger limit parts }
{}

/// A line that begins with the layout's type is judged as a record exactly if it has that record, and is judged to have a fault
/// exactly if it has that fault.
pub fn line_has_record<L: Layout>()
    ensures has_record { (line : List ℕ) (r : L) → take 1 line ≡ L.RTYPE ∷ []
        → (judged_as L.LEN L.reading line ≡ Ok r ↔ IsLineOf L.RTYPE L.LEN L.Spells line r) }
    ensures has_fault { (line : List ℕ) (fault : LineFault) → take 1 line ≡ L.RTYPE ∷ []
        → (judged_as L.LEN L.reading line ≡ Err fault ↔ IsFaultIn L.LEN L.IsFault line fault) }
{}

/// A line is judged as a record exactly if it has that record, by the column table of its type. It is judged to have a fault
/// exactly if it has that fault, which for fields is the leftmost one at fault by the table.
pub fn line_is_judged_as_its_record()
    ensures has_record { (line : List ℕ) (found : Record) → (tiger.verdict line ≡ Ok found ↔ HasRecord line found) }
    ensures has_fault { (line : List ℕ) (fault : LineFault) → (tiger.verdict line ≡ Err fault ↔ IsFaultOfLine line fault) }
{}

/// The canonical text of records, as one part, spells exactly these records.
pub fn text_spells_its_records()
    ensures spells { (records : List Record) → All FitsRecord records → Spells tiger (text_of records ∷ []) records }
    ensures only { (records others : List Record) → All FitsRecord records → Spells tiger (text_of records ∷ []) others → others ≡ records }
{}

/// Anything that a line spells fits: each number is in its range, each text has its width, and each point is on the map. All
/// records that parts spell therefore fit, and a set accepted within a limit has at most that many records of each type.
pub fn spelled_records_fit()
    ensures line { (line : List ℕ) (found : Record) → HasRecord line found → FitsRecord found }
    ensures parts { (parts : List (List ℕ)) (records : List Record) → Spells tiger parts records → All FitsRecord records }
    ensures within { (limit : ℕ) (parts : List (List ℕ)) (records : List Record)
        → SpellsWithin tiger limit parts records → IsWithinLimit limit records }
{}

/// Sets of parts with the same lines in the same order spell the same records. If one of them has a fault, each other one has
/// the same fault, perhaps at a different part and line.
pub fn sets_of_the_same_lines_are_alike()
    ensures spells { (parts others : List (List ℕ)) (records : List Record) → HaveSameLines parts others
        → (Spells tiger parts records ↔ Spells tiger others records) }
    ensures fault { (limit : ℕ) (parts others : List (List ℕ)) (fault : LoadFault) → HaveSameLines parts others
        → FaultAt tiger limit parts fault
        → (reported : LoadFault) × FaultAt tiger limit others reported × (without_place reported ≡ without_place fault) }
{}

/// A set can be cut into parts anywhere between lines. The lines stay the same, and the bytes after the cut spell the same as a separate
/// part. An empty part has no line and spells nothing; at the end of a set it changes no fault.
pub fn parts_may_be_cut_between_lines()
    ensures lines { (before later : List (List ℕ)) (text rest : List ℕ)
        → HaveSameLines (before ++ (text ++ 10 ∷ rest) ∷ later) (before ++ (text ++ 10 ∷ []) ∷ rest ∷ later) }
    ensures cut { (before later : List (List ℕ)) (text rest : List ℕ) (records : List Record)
        → (Spells tiger (before ++ (text ++ 10 ∷ rest) ∷ later) records
        ↔ Spells tiger (before ++ (text ++ 10 ∷ []) ∷ rest ∷ later) records) }
    ensures empty_lines { (before later : List (List ℕ)) → HaveSameLines (before ++ [] ∷ later) (before ++ later) }
    ensures empty { (before later : List (List ℕ)) (records : List Record)
        → (Spells tiger (before ++ [] ∷ later) records ↔ Spells tiger (before ++ later) records) }
    ensures fault { (limit : ℕ) (parts : List (List ℕ)) (fault : LoadFault)
        → (FaultAt tiger limit (parts ++ [] ∷ []) fault ↔ FaultAt tiger limit parts fault) }
{}
