//! The operands of expressions that are written.

ghost use Rattle.std.specs.Prelude.{◌≡◌, ◌-◌, ◌<◌, ◌^◌, OnOk, length};
ghost use Rattle.dwz_def_reading.specs.Entries.{RawAttr};
ghost use Rattle.dwz_forms.specs.RawValues.{raw_view};
ghost use Rattle.dwz_def_reading.specs.Exprs.{any_operands, expr_at, parts_from};
ghost use Rattle.dwz_layout.specs.Attributes.{parts_or};

use dwz_def_reading::Operand;
use dwz_expr::read_into;
use dwz_model::{NoMemory, ReadErr};

/// Puts the operands of an expression that name entries into the room, in order. The expression ends before a place of `.debug_info`, from
/// which the places of operands are counted. Bytes that are no expression have none.
pub fn read_operands(room: &mut Vec<Operand>, bytes: &[u8], end: u64) -> Result<(), NoMemory>
    ensures { OnOk result (parts_from (end - length bytes.now) bytes.now room.new.items
        ≡ parts_or bytes.now (expr_at (any_operands 1) (record { at = end - length bytes.now; rest = bytes.now }))) }
{
    room.clear();
    let at = end.saturating_sub(bytes.len() as u64);
    match read_into(room, bytes, at, 1) {
        Ok(_) => Ok(()),
        Err(ReadErr::Refused(_)) => {
            room.clear();
            Ok(())
        }
        Err(ReadErr::NoMemory) => Err(std::alloc::AllocError),
    }
}
