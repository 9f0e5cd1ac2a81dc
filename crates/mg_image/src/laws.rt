//! What holds of readings. Each function does nothing: its contract is the law.

ghost use Rattle.mg_image.specs.Form.{packed_coding, plain_coding};
ghost use Rattle.mg_image.specs.ReadingLaws.{HasOneReading, RowsAreOne};

use mg_rle::one_plain_text;
use mg_rowcode::one_row;

/// A body codes one row of a format at most, and so an image has one reading at most.
pub fn one_reading()
    ensures plain_rows { RowsAreOne plain_coding }
    ensures packed_rows { RowsAreOne packed_coding }
    ensures plain { HasOneReading plain_coding }
    ensures packed { HasOneReading packed_coding }
{
    one_row();
    one_plain_text();
}
