//! Laws of the definitions. Each is the contract of a function that does nothing.

ghost use Rattle.std.specs.Prelude.{◌≡◌};
ghost use Rattle.tl_layout.specs.ColumnTable.{MasksRows, TurnsRows};
ghost use Rattle.tl_layout.specs.Fields.{Fields1, Fields2, Fields4, Fields5, Fields6, Fields7, Fields8, FieldsI, FieldsP};
ghost use Rattle.tl_layout.specs.Masked.{masked_body_1, masked_type_1, masked_type_7, masked_type_i};
ghost use Rattle.tl_layout.specs.RecordTables.{table_1, table_2, table_4, table_5, table_6, table_7, table_8, table_i, table_p};
ghost use Rattle.tl_layout.specs.Turned.{turned_body, turned_type_1, turned_type_6, turned_type_i};
ghost use Rattle.tl_layout.specs.declared.mask.Mask.{Mask};
ghost use Rattle.tl_layout.specs.declared.type1.fields.Body1Fields.{Body1Fields};

/// A turn gives each field the value of its partner in the column table of its record type, and keeps every other field.
pub fn a_turn_exchanges_partners()
    ensures type_1 { (r : Fields1) → TurnsRows table_1 r (turned_type_1 r) }
    ensures type_6 { (r : Fields6) → TurnsRows table_6 r (turned_type_6 r) }
    ensures type_i { (r : FieldsI) → TurnsRows table_i r (turned_type_i r) }
{}

/// A mask blanks exactly the fields that the column tables assign to it, and keeps every other field. Types 2, 4, 5, 6, 8 and P
/// have no such field.
pub fn a_mask_blanks_its_fields()
    ensures type_1 { (mask : Mask) (r : Fields1) → MasksRows mask table_1 r (masked_type_1 mask r) }
    ensures type_7 { (mask : Mask) (r : Fields7) → MasksRows mask table_7 r (masked_type_7 mask r) }
    ensures type_i { (mask : Mask) (r : FieldsI) → MasksRows mask table_i r (masked_type_i mask r) }
    ensures type_2 { (mask : Mask) (r : Fields2) → MasksRows mask table_2 r r }
    ensures type_4 { (mask : Mask) (r : Fields4) → MasksRows mask table_4 r r }
    ensures type_5 { (mask : Mask) (r : Fields5) → MasksRows mask table_5 r r }
    ensures type_6 { (mask : Mask) (r : Fields6) → MasksRows mask table_6 r r }
    ensures type_8 { (mask : Mask) (r : Fields8) → MasksRows mask table_8 r r }
    ensures type_p { (mask : Mask) (r : FieldsP) → MasksRows mask table_p r r }
{}

/// Blanking and turning the content of a record of type 1 commute.
pub fn blanking_and_turning_change_places()
    ensures { (mask : Mask) (body : Body1Fields) → turned_body (masked_body_1 mask body) ≡ masked_body_1 mask (turned_body body) }
{}
