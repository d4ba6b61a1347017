// A table that begins a buffer, which may be longer.
ghost use Rattle.std.specs.Prelude.{◌≡◌, ◌≤◌, length, take};
ghost use Rattle.table.specs.Table.{table_in};
ghost use Rattle.table.specs.Filling.{filling_answer};
ghost use Rattle.table.specs.Reading.{sizes_answer};

use table::{FilledSizes, Refusal};

// How many words the table has by its sizes, or all words of the buffer where there are fewer.
fn table_end(buffer: &[u16]) -> usize
    ensures { (result ≤ length buffer.now) × (take result buffer.now ≡ table_in buffer.now) }
{
    let len = buffer.len();
    if len < 2 {
        return len;
    }
    let needed = 2 + 2 * (buffer[0] as usize) + 2 * (buffer[1] as usize);
    needed.min(len)
}

// Reads the table that begins the buffer. A buffer that is too short is a table of another length than its sizes ask.
pub fn read_in(buffer: &[u16]) -> Result<FilledSizes, Refusal>
    ensures { filling_answer result ≡ sizes_answer (table_in buffer.now) }
{
    let end = table_end(buffer);
    table_reader::read_sizes(&buffer[..end])
}
