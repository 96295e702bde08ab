//! What the look into a table means.

ghost use Rattle.std.specs.Prelude.{◌≡◌, ℕ, List, Some, None, true};
ghost use Rattle.dwz_codes.specs.Attributes.{attribute_rows};
ghost use Rattle.dwz_codes.specs.Forms.{form_rows};
ghost use Rattle.dwz_codes.specs.ListKinds.{list_kind_rows};
ghost use Rattle.dwz_codes.specs.Operators.{operator_rows};
ghost use Rattle.dwz_codes.specs.Rows.{HaveOwnCodes, IsRow, RowView, ascends, row_of};
ghost use Rattle.dwz_codes.specs.Tags.{tag_rows};

/// The row that is found has the code, and none is found only where no row has it. Where codes ascend, they differ; in the
/// tables of forms, operators and kinds of list entries they ascend.
#[tactic(auto, unfolding(crate::specs::Forms::form_rows, crate::specs::Operators::operator_rows, crate::specs::ListKinds::list_kind_rows))]
pub fn table_laws()
    ensures found { (rows : List RowView) (code : ℕ) (r : RowView) → row_of rows code ≡ Some r → IsRow r rows × (r.code ≡ code) }
    ensures none { (rows : List RowView) (code : ℕ) → row_of rows code ≡ None → (r : RowView) → IsRow r rows → ¬ (r.code ≡ code) }
    ensures different { (rows : List RowView) → ascends 0 rows ≡ true → HaveOwnCodes rows }
    ensures forms { ascends 0 form_rows ≡ true }
    ensures operators { ascends 0 operator_rows ≡ true }
    ensures list_kinds { ascends 0 list_kind_rows ≡ true }
{}

/// So they do in the tables of the names of tags and attributes.
#[tactic(auto, unfolding(crate::specs::Tags::tag_rows, crate::specs::Attributes::attribute_rows))]
pub fn name_laws()
    ensures tags { ascends 0 tag_rows ≡ true }
    ensures attributes { ascends 0 attribute_rows ≡ true }
{}
