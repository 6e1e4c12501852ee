ghost use Rattle.std.specs.Prelude.{◌≡◌, true};
ghost use Rattle.isa_rows.specs.declared.rows.Row.{Row};
ghost use Rattle.isa_rows.specs.Kind.{kind_of};
ghost use Rattle.isa_rows.specs.Line.{line_of};
ghost use Rattle.isa_rows.specs.Once.{HoldsEachRowOnce};
ghost use Rattle.isa_rows.specs.Transfers.{is_moved_by};

use crate::table::ROWS;

/// `ROWS` holds each row, at one place alone.
pub fn rows_hold_each_row_once()
    ensures { HoldsEachRowOnce ROWS }
{}

/// Loads and stores of data move data, those of capabilities a capability, and every other row moves nothing.
pub fn rows_move_by_kind()
    ensures { (row : Row) → is_moved_by (kind_of row) (line_of row).transfer ≡ true }
{}
