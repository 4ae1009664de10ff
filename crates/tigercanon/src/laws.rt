//! Laws of sets. The functions do nothing; their contracts are the laws.

ghost use Rattle.std.specs.Prelude.{List, [], ℕ, ◌↔◌, ◌∷◌, ◌≡◌, ◌⊎◌};
ghost use Rattle.tigercanon.specs.Sets.{IsAcceptedSet, IsCanonicalText, IsCanonicalTextInView, IsSetRefusal, refusal_without_place};
ghost use Rattle.tigercanon.specs.Normalising.{IsOnlyTextInView};
ghost use Rattle.tigercanon.specs.declared.fault.Fault.{Fault};
ghost use Rattle.tl_layout.specs.Limits.{most_records};
ghost use Rattle.tl_layout.specs.Masked.{no_mask};
ghost use Rattle.tl_layout.specs.RecordText.{text_of};
ghost use Rattle.tl_layout.specs.declared.mask.Mask.{Mask};
ghost use Rattle.tl_layout.specs.declared.record_type.Record.{Record};
ghost use Rattle.county_chart.specs.County.{County, county_of};
ghost use Rattle.county_chart.specs.MaskedCounty.{masked};
ghost use Rattle.county_chart.specs.Renumbering.{AreSame};
ghost use Rattle.tl_load.specs.Choice.{tiger};
ghost use Rattle.tl_load.specs.Lines.{HaveSameLines};
ghost use Rattle.tl_load.specs.Outcome.{SpellsWithin};
ghost use Rattle.canonical_form.specs.CountyViews.{IsView};
ghost use Rattle.canonical_form.specs.Strict.{IsStrictInView};

/// A set of parts is accepted or has a refusal, never both, and never two refusals.
#[tactic(auto, using(crate::proofs::Sets::accepted_set_not_refused, crate::proofs::Sets::one_set_refusal))]
pub fn accepted_set_or_one_refusal()
    ensures either { (parts : List (List ℕ)) →
        ((records : List Record) × IsAcceptedSet parts records) ⊎ ((refusal : Fault) × IsSetRefusal parts refusal) }
    ensures not_both { (parts : List (List ℕ)) (records : List Record) (refusal : Fault) →
        IsAcceptedSet parts records → IsSetRefusal parts refusal → ⊥ }
    ensures only_one { (parts : List (List ℕ)) (refusal other : Fault) →
        IsSetRefusal parts refusal → IsSetRefusal parts other → refusal ≡ other }
{}

/// If sets have the same lines, one after the other, all or none are accepted, and they have the same canonical texts. If one is
/// refused, so is each other, for the same rule at the same place, except for the part and line of a faulty line. So it makes no
/// difference at which line boundaries a set is cut into parts.
#[tactic(auto, using(crate::proofs::SameLines::accepted_alike, crate::proofs::SameLines::text_alike, crate::proofs::SameLines::refused_alike))]
pub fn sets_of_the_same_lines_are_alike()
    ensures accepted { (parts others : List (List ℕ)) (records : List Record) →
        HaveSameLines parts others → IsAcceptedSet parts records → IsAcceptedSet others records }
    ensures texts { (view : County → County) (parts others : List (List ℕ)) (text : List ℕ) →
        HaveSameLines parts others → IsCanonicalTextInView view parts text → IsCanonicalTextInView view others text }
    ensures refused { (parts others : List (List ℕ)) (refusal : Fault) →
        HaveSameLines parts others → IsSetRefusal parts refusal →
        (reported : Fault) × IsSetRefusal others reported × (refusal_without_place reported ≡ refusal_without_place refusal) }
{}

/// Two sets that have canonical texts have equal ones exactly if their counties are the same.
pub fn one_canonical_text_exactly_for_one_map()
    ensures same { (p q : List (List ℕ)) (t u : List ℕ) (h : IsCanonicalText p t) (k : IsCanonicalText q u) →
        AreSame (county_of h.records) (county_of k.records) → t ≡ u }
    ensures equal { (p q : List (List ℕ)) (t u : List ℕ) (h : IsCanonicalText p t) (k : IsCanonicalText q u) →
        t ≡ u → AreSame (county_of h.records) (county_of k.records) }
{}

/// An accepted set has exactly one canonical text.
pub fn an_accepted_set_has_one_canonical_text()
    ensures exists { (parts : List (List ℕ)) (records : List Record) →
        IsAcceptedSet parts records → (text : List ℕ) × IsCanonicalText parts text }
    ensures only { (parts : List (List ℕ)) (text other : List ℕ) →
        IsCanonicalText parts text → IsCanonicalText parts other → text ≡ other }
{}

/// A set that the older, stricter rules accept keeps its text: the text of its strict list is its canonical text, and no other text
/// is.
pub fn strict_sets_keep_their_texts()
    ensures text { (view : County → County) (parts : List (List ℕ)) (records answer : List Record) →
        IsView view → SpellsWithin tiger most_records parts records → IsStrictInView view records answer →
        IsCanonicalTextInView view parts (text_of answer) }
    ensures only { (view : County → County) (parts : List (List ℕ)) (records answer : List Record) (text : List ℕ) →
        IsView view → SpellsWithin tiger most_records parts records → IsStrictInView view records answer →
        IsCanonicalTextInView view parts text → text ≡ text_of answer }
{}

/// A canonical text, as one part, is an accepted set whose county is the same as that of the set that the text was made from, and
/// it is its own canonical text.
pub fn a_canonical_text_is_its_own()
    ensures accepted { (parts : List (List ℕ)) (text : List ℕ) (h : IsCanonicalText parts text) →
        IsAcceptedSet (text ∷ []) h.canonical }
    ensures same { (parts : List (List ℕ)) (text : List ℕ) (h : IsCanonicalText parts text) →
        AreSame (county_of h.records) (county_of h.canonical) }
    ensures itself { (parts : List (List ℕ)) (text : List ℕ) →
        IsCanonicalText parts text → IsCanonicalText (text ∷ []) text }
{}

/// Take any view: it shows a county whole, or without some of its fields. In the view an accepted set has exactly one canonical text,
/// and each canonical list of the map that the view shows has this text. The texts of two sets are equal exactly if the view shows
/// the same map of both. A text that is canonical in the view is an accepted set, as one part, and it is its own canonical text both
/// in the view and without it.
pub fn one_canonical_text_in_each_view()
    ensures exists { (view : County → County) (parts : List (List ℕ)) (records : List Record) →
        IsView view → IsAcceptedSet parts records → (text : List ℕ) × IsCanonicalTextInView view parts text }
    ensures only { (view : County → County) (parts : List (List ℕ)) (text : List ℕ) →
        IsView view → IsCanonicalTextInView view parts text → IsOnlyTextInView view parts text }
    ensures same { (view : County → County) (p q : List (List ℕ)) (t u : List ℕ) → IsView view →
        (h : IsCanonicalTextInView view p t) (k : IsCanonicalTextInView view q u) →
        AreSame (view (county_of h.records)) (view (county_of k.records)) → t ≡ u }
    ensures equal { (view : County → County) (p q : List (List ℕ)) (t u : List ℕ) → IsView view →
        (h : IsCanonicalTextInView view p t) (k : IsCanonicalTextInView view q u) →
        t ≡ u → AreSame (view (county_of h.records)) (view (county_of k.records)) }
    ensures accepted { (view : County → County) (parts : List (List ℕ)) (text : List ℕ) → IsView view →
        (h : IsCanonicalTextInView view parts text) → IsAcceptedSet (text ∷ []) h.canonical }
    ensures itself { (view : County → County) (parts : List (List ℕ)) (text : List ℕ) →
        IsView view → IsCanonicalTextInView view parts text →
        IsCanonicalTextInView view (text ∷ []) text × IsCanonicalText (text ∷ []) text }
{}

/// Under each mask an accepted set has exactly one canonical text. The texts of two sets are equal exactly if their counties are
/// the same under the mask. And a text that is canonical under the mask is, as one part, its own canonical text under the mask and
/// without one. A mask that leaves nothing out makes no difference.
pub fn one_canonical_text_under_each_mask()
    ensures exists { (mask : Mask) (parts : List (List ℕ)) (records : List Record) →
        IsAcceptedSet parts records → (text : List ℕ) × IsCanonicalTextInView (masked mask) parts text }
    ensures only { (mask : Mask) (parts : List (List ℕ)) (text other : List ℕ) →
        IsCanonicalTextInView (masked mask) parts text → IsCanonicalTextInView (masked mask) parts other → text ≡ other }
    ensures same { (mask : Mask) (p q : List (List ℕ)) (t u : List ℕ)
        (h : IsCanonicalTextInView (masked mask) p t) (k : IsCanonicalTextInView (masked mask) q u) →
        AreSame (masked mask (county_of h.records)) (masked mask (county_of k.records)) → t ≡ u }
    ensures equal { (mask : Mask) (p q : List (List ℕ)) (t u : List ℕ)
        (h : IsCanonicalTextInView (masked mask) p t) (k : IsCanonicalTextInView (masked mask) q u) →
        t ≡ u → AreSame (masked mask (county_of h.records)) (masked mask (county_of k.records)) }
    ensures itself { (mask : Mask) (parts : List (List ℕ)) (text : List ℕ) →
        IsCanonicalTextInView (masked mask) parts text → IsCanonicalTextInView (masked mask) (text ∷ []) text }
    ensures plain { (mask : Mask) (parts : List (List ℕ)) (text : List ℕ) →
        IsCanonicalTextInView (masked mask) parts text → IsCanonicalText (text ∷ []) text }
    ensures no_mask { (parts : List (List ℕ)) (text : List ℕ) →
        IsCanonicalTextInView (masked no_mask) parts text ↔ IsCanonicalText parts text }
{}
