//! Laws of the definitions in `specs/`. The functions do nothing; their contracts are the laws.

ghost use Rattle.std.specs.List.{AllByRecursion};
ghost use Rattle.std.specs.Prelude.{List, ℕ, ◌<◌, ◌≡◌, ◌≤◌, ◌⊎◌};
ghost use Rattle.county_chart.specs.CountyRules.{AllKeysContained, IsCounty, polygon_keys, polygons_along};
ghost use Rattle.county_chart.specs.Choices.{choices};
ghost use Rattle.county_chart.specs.County.{County, county_of};
ghost use Rattle.tl_layout.specs.Limits.{IsWithinLimit, count_of_type, most_records};
ghost use Rattle.county_chart.specs.MaskedCounty.{masked};
ghost use Rattle.county_chart.specs.Packing.{packed};
ghost use Rattle.county_chart.specs.Renumbering.{AreSame, Carries, Renumbering};
ghost use Rattle.tl_layout.specs.Masked.{no_mask};
ghost use Rattle.tl_layout.specs.RecordText.{FitsRecord, text_of};
ghost use Rattle.tl_layout.specs.declared.mask.Mask.{Mask};
ghost use Rattle.tl_layout.specs.declared.record_type.Record.{Record};
ghost use Rattle.canonical_form.specs.Accepted.{IsAccepted, IsCanonicalInView, IsCanonicalOf, IsRefusal, RecordsRefusal};
ghost use Rattle.canonical_form.specs.Arrangement.{Arrangement, Arranges, arranged, ascending, renaming_of};
ghost use Rattle.canonical_form.specs.Canonical.{IsArrangedList, IsCanonical, IsTidyList, KeepsChainNumbers};
ghost use Rattle.canonical_form.specs.Strict.{IsStrictInView, IsStrictOf, IsStrictlyAccepted};
ghost use Rattle.canonical_form.specs.Tidy.{HasShapesApart, IsChoice, IsLeastChoice, arranged_list, numbered_choice};
ghost use Rattle.canonical_form.specs.ArrangedCounty.{IsArranged};
ghost use Rattle.canonical_form.specs.RecordNumbers.{greatest_number, numbers_of};
ghost use Rattle.canonical_form.specs.ViewRecords.{ShowsNoMore};
ghost use Rattle.canonical_form.specs.CountyViews.{IsView, plain};

/// A list in the canonical order, packing and numbering is the packing of its county, for any choice of TLIDs and directions.
pub fn arranged_lists_are_the_packing_of_their_county()
    ensures { (records : List Record) → IsArrangedList records → records ≡ packed (county_of records) }
{}

/// Two lists in the canonical order, packing and numbering are equal if a renaming that keeps each TLID and turns no chain carries the
/// county of one onto the county of the other.
pub fn arranged_lists_with_one_choice_are_equal()
    ensures { (r : Renumbering) (xs ys : List Record) →
        IsArrangedList xs → IsArrangedList ys → Carries r (county_of xs) (county_of ys) → KeepsChainNumbers r (county_of xs) → xs ≡ ys }
{}

/// All canonical lists of a map have the same text: if the counties of two canonical lists are the same, so are their texts.
pub fn canonical_lists_of_one_county_have_one_text()
    ensures { (xs ys : List Record) →
        IsCanonical xs → IsCanonical ys → AreSame (county_of xs) (county_of ys) → text_of xs ≡ text_of ys }
{}

/// Any arrangement of a county whose polygons are all on sides makes a county that is the same map, with canonical numbers for
/// the arrangement's order and directions, and an arranged list of records.
pub fn an_arrangement_gives_an_arranged_list()
    ensures carries { (county : County) (arrangement : Arrangement) →
        IsCounty county → Arranges arrangement county → AllKeysContained (polygons_along county.chains) (polygon_keys county) →
        Carries (renaming_of county arrangement) county (arranged county arrangement) }
    ensures county { (county : County) (arrangement : Arrangement) →
        IsCounty county → Arranges arrangement county → AllKeysContained (polygons_along county.chains) (polygon_keys county) →
        IsCounty (arranged county arrangement) × IsArranged (arranged county arrangement) }
    ensures list { (county : County) → IsCounty county → IsArranged county → IsArrangedList (packed county) }
{}

/// The county of the packing of a county is that county.
pub fn a_packed_county_is_read_back()
    ensures { (county : County) → IsCounty county → county_of (packed county) ≡ county }
{}

/// Each accepted list of records has a canonical list: the packing of its county in any choice with the least text is one. All
/// its canonical lists have the same text. If no two chains have the same shape, and none is its own reverse, there is only one
/// canonical list: the packing of the county in the ascending arrangement.
pub fn each_accepted_list_has_one_canonical_text()
    ensures exists { (records : List Record) → IsAccepted records → (answer : List Record) × IsCanonicalOf records answer }
    ensures choice { (records : List Record) (arrangement : Arrangement) →
        IsAccepted records → IsLeastChoice (county_of records) arrangement → IsCanonicalOf records (arranged_list (county_of records) arrangement) }
    ensures only { (records c d : List Record) → IsCanonicalOf records c → IsCanonicalOf records d → text_of c ≡ text_of d }
    ensures apart { (records answer : List Record) →
        HasShapesApart (county_of records) → IsCanonicalOf records answer →
        answer ≡ arranged_list (county_of records) (ascending (county_of records)) }
{}

/// A canonical list has at most as many records of each type as the list of fitting records that it belongs to. If that list
/// has at most limit records of each type, all records of the canonical list fit too, and no number in them is above
/// 20,000,000.
pub fn canonical_lists_keep_the_limits()
    ensures counts { (records canonical : List Record) →
        AllByRecursion FitsRecord records → IsCanonicalOf records canonical →
        (rtype : ℕ) → count_of_type rtype canonical ≤ count_of_type rtype records }
    ensures limits { (limit : ℕ) (records canonical : List Record) →
        limit ≤ most_records → AllByRecursion FitsRecord records → IsWithinLimit limit records →
        IsCanonicalOf records canonical → AllByRecursion FitsRecord canonical × IsWithinLimit limit canonical }
    ensures numbers { (records canonical : List Record) →
        AllByRecursion FitsRecord records → IsWithinLimit most_records records →
        IsCanonicalOf records canonical → AllByRecursion (λ r. AllByRecursion (λ n. n ≤ greatest_number) (numbers_of r)) canonical }
{}

/// Take any view, and a list that is canonical in it. The list keeps the same limits relative to the list that it belongs to. For the
/// number of its records, the view must show no county with more records of a type than the county has.
pub fn canonical_lists_keep_the_limits_in_each_view()
    ensures counts { (view : County → County) (records canonical : List Record) →
        IsView view → ShowsNoMore view → AllByRecursion FitsRecord records → IsCanonicalInView view records canonical →
        (rtype : ℕ) → count_of_type rtype canonical ≤ count_of_type rtype records }
    ensures limits { (view : County → County) (limit : ℕ) (records canonical : List Record) →
        IsView view → limit ≤ most_records → AllByRecursion FitsRecord records → IsWithinLimit limit records →
        IsCanonicalInView view records canonical → AllByRecursion FitsRecord canonical × IsWithinLimit limit canonical }
    ensures numbers { (view : County → County) (records canonical : List Record) →
        IsView view → AllByRecursion FitsRecord records → IsWithinLimit most_records records →
        IsCanonicalInView view records canonical →
        AllByRecursion (λ r. AllByRecursion (λ n. n ≤ greatest_number) (numbers_of r)) canonical }
{}

/// A county has at most as many records under a mask as without it. Under each mask, a canonical list therefore keeps the same
/// limits relative to its list.
pub fn canonical_lists_keep_the_limits_under_each_mask()
    ensures no_more { (mask : Mask) → ShowsNoMore (masked mask) }
    ensures counts { (mask : Mask) (records canonical : List Record) →
        AllByRecursion FitsRecord records → IsCanonicalInView (masked mask) records canonical →
        (rtype : ℕ) → count_of_type rtype canonical ≤ count_of_type rtype records }
    ensures limits { (mask : Mask) (limit : ℕ) (records canonical : List Record) →
        limit ≤ most_records → AllByRecursion FitsRecord records → IsWithinLimit limit records →
        IsCanonicalInView (masked mask) records canonical → AllByRecursion FitsRecord canonical × IsWithinLimit limit canonical }
    ensures numbers { (mask : Mask) (records canonical : List Record) →
        AllByRecursion FitsRecord records → IsWithinLimit most_records records →
        IsCanonicalInView (masked mask) records canonical →
        AllByRecursion (λ r. AllByRecursion (λ n. n ≤ greatest_number) (numbers_of r)) canonical }
{}

/// A list of records is accepted or has exactly one refusal, never both.
pub fn accepted_or_one_refusal()
    ensures either { (records : List Record) → IsAccepted records ⊎ ((refusal : RecordsRefusal) × IsRefusal records refusal) }
    ensures not_both { (records : List Record) (refusal : RecordsRefusal) → IsAccepted records → IsRefusal records refusal → ⊥ }
    ensures only_one { (records : List Record) (refusal other : RecordsRefusal) →
        IsRefusal records refusal → IsRefusal records other → refusal ≡ other }
{}

/// Canonical lists of two accepted lists have the same text if the counties of the two lists are the same, and are equal only
/// then. A canonical list is accepted and is its own canonical list.
pub fn one_canonical_text_for_one_map()
    ensures same { (xs ys c d : List Record) →
        IsCanonicalOf xs c → IsCanonicalOf ys d → AreSame (county_of xs) (county_of ys) → text_of c ≡ text_of d }
    ensures equal { (xs ys c d : List Record) →
        IsCanonicalOf xs c → IsCanonicalOf ys d → c ≡ d → AreSame (county_of xs) (county_of ys) }
    ensures itself { (xs c : List Record) → IsCanonicalOf xs c → IsCanonicalOf c c }
{}

/// Take any view. An accepted list has lists that are canonical in the view, all with the same text. Two lists that are canonical in
/// the view have the same text if the view shows the same map of the counties that they belong to, and are equal only then. A list
/// that is canonical in the view is its own canonical list, both in the view and without it.
pub fn one_canonical_text_in_each_view()
    ensures exists { (view : County → County) (records : List Record) →
        IsView view → IsAccepted records → (answer : List Record) × IsCanonicalInView view records answer }
    ensures only { (view : County → County) (records c d : List Record) →
        IsView view → IsCanonicalInView view records c → IsCanonicalInView view records d → text_of c ≡ text_of d }
    ensures same { (view : County → County) (xs ys c d : List Record) →
        IsView view → IsCanonicalInView view xs c → IsCanonicalInView view ys d →
        AreSame (view (county_of xs)) (view (county_of ys)) → text_of c ≡ text_of d }
    ensures equal { (view : County → County) (xs ys c d : List Record) →
        IsView view → IsCanonicalInView view xs c → IsCanonicalInView view ys d →
        c ≡ d → AreSame (view (county_of xs)) (view (county_of ys)) }
    ensures itself { (view : County → County) (xs c : List Record) →
        IsView view → IsCanonicalInView view xs c → IsCanonicalInView view c c × IsCanonicalOf c c }
{}

/// Viewing counties under a mask is a view, and under the mask that leaves nothing out it shows the county itself. Under each
/// mask, an accepted list therefore has canonical lists, all with the same text. Canonical lists of two accepted lists have the
/// same text if their counties are the same under the mask, and are equal only then. A canonical list is its own canonical
/// list, both under the mask and without it.
pub fn one_canonical_text_under_each_mask()
    ensures view { (mask : Mask) → IsView (masked mask) }
    ensures no_mask { masked no_mask ≡ plain }
    ensures exists { (mask : Mask) (records : List Record) →
        IsAccepted records → (answer : List Record) × IsCanonicalInView (masked mask) records answer }
    ensures only { (mask : Mask) (records c d : List Record) →
        IsCanonicalInView (masked mask) records c → IsCanonicalInView (masked mask) records d → text_of c ≡ text_of d }
    ensures same { (mask : Mask) (xs ys c d : List Record) →
        IsCanonicalInView (masked mask) xs c → IsCanonicalInView (masked mask) ys d →
        AreSame (masked mask (county_of xs)) (masked mask (county_of ys)) → text_of c ≡ text_of d }
    ensures equal { (mask : Mask) (xs ys c d : List Record) →
        IsCanonicalInView (masked mask) xs c → IsCanonicalInView (masked mask) ys d →
        c ≡ d → AreSame (masked mask (county_of xs)) (masked mask (county_of ys)) }
    ensures itself { (mask : Mask) (xs c : List Record) →
        IsCanonicalInView (masked mask) xs c → IsCanonicalInView (masked mask) c c × IsCanonicalOf c c }
{}

/// Before chains with the same shape and chains that are their own reverse were accepted, canonical lists were those in which
/// points determine every TLID and direction. Every list accepted then is accepted, and has such a list, both without a mask
/// and under each mask. In any view, such a list is canonical, and no other list is. A set that had a text then therefore has
/// the same text now.
pub fn strict_lists_are_canonical()
    ensures accepted { (records : List Record) → IsStrictlyAccepted records → IsAccepted records }
    ensures exists { (records : List Record) → IsStrictlyAccepted records → (answer : List Record) × IsStrictOf records answer }
    ensures exists_masked { (mask : Mask) (records : List Record) →
        IsStrictlyAccepted records → (answer : List Record) × IsStrictInView (masked mask) records answer }
    ensures canonical { (view : County → County) (records answer : List Record) →
        IsStrictInView view records answer → IsCanonicalInView view records answer }
    ensures only { (view : County → County) (records answer canonical : List Record) →
        IsView view → IsStrictInView view records answer → IsCanonicalInView view records canonical → canonical ≡ answer }
{}

/// Each number selects a choice of a county: an arrangement in which no chain's points come after their reverse, or after the points of a
/// later chain. Each choice has a number below the number of choices, and number 0 is the ascending arrangement.
pub fn choices_are_numbered()
    ensures stated { (county : County) (number : ℕ) → IsCounty county → IsChoice county (numbered_choice county number) }
    ensures each { (county : County) (arrangement : Arrangement) →
        IsCounty county → IsChoice county arrangement →
        (number : ℕ) × (number < choices county) × (numbered_choice county number ≡ arrangement) }
    ensures first { (county : County) → IsCounty county → numbered_choice county 0 ≡ ascending county }
{}

/// A county in which no two chains have the same shape, and none is its own reverse, has only one choice: the ascending
/// arrangement.
pub fn one_choice_where_shapes_are_apart()
    ensures count { (county : County) → HasShapesApart county → choices county ≡ 1 }
    ensures only { (county : County) (arrangement : Arrangement) →
        IsCounty county → HasShapesApart county → IsChoice county arrangement → arrangement ≡ ascending county }
{}

/// For a county whose polygons are all on sides, each choice makes a tidy list of the same map, and each tidy list of the same
/// map is made by a choice.
pub fn tidy_lists_are_those_of_choices()
    ensures list { (county : County) (arrangement : Arrangement) →
        IsCounty county → AllKeysContained (polygons_along county.chains) (polygon_keys county) → IsChoice county arrangement →
        IsTidyList (arranged_list county arrangement) × AreSame county (county_of (arranged_list county arrangement)) }
    ensures choice { (county : County) (records : List Record) →
        IsCounty county → AllKeysContained (polygons_along county.chains) (polygon_keys county) →
        IsTidyList records → AreSame county (county_of records) →
        (arrangement : Arrangement) × IsChoice county arrangement × (records ≡ arranged_list county arrangement) }
{}

/// For a county whose polygons are all on sides, some choice has the least text. The list of such a choice is a canonical list
/// of the same map, and each canonical list of the same map is the list of such a choice.
pub fn canonical_lists_are_those_of_least_choices()
    ensures exists { (county : County) →
        IsCounty county → AllKeysContained (polygons_along county.chains) (polygon_keys county) →
        (number : ℕ) × (number < choices county) × IsLeastChoice county (numbered_choice county number) }
    ensures list { (county : County) (arrangement : Arrangement) →
        IsCounty county → AllKeysContained (polygons_along county.chains) (polygon_keys county) → IsLeastChoice county arrangement →
        IsCanonical (arranged_list county arrangement) × AreSame county (county_of (arranged_list county arrangement)) }
    ensures choice { (county : County) (records : List Record) →
        IsCounty county → AllKeysContained (polygons_along county.chains) (polygon_keys county) →
        IsCanonical records → AreSame county (county_of records) →
        (arrangement : Arrangement) × IsLeastChoice county arrangement × (records ≡ arranged_list county arrangement) }
{}
