// The line of the bars.
ghost use Rattle.std.specs.Prelude.{◌≡◌, true, ◌+◌, ◌≤◌, ◌<◌, length};
ghost use Rattle.std.proofs.lemmas.List.Edits.{sets};
ghost use Rattle.bounds.specs.Bounds.{table_fits};
ghost use Rattle.lines.specs.Bars.{run_bar, bar_text, rows_text, bars_text};
ghost use Rattle.lines.specs.Text.{HasRoom, Wrote};

use super::text::Text;
use table::table::Table;

// Of each row the commit bar and the run bar. Written from a place on; the place after it. Of a table within the bounds, which is
// asked and no type says: docs/ENTRIES.md names it for any table that is shown to be.
pub fn put_bars(text: &mut [u8], at: usize, table: Table) -> usize
    requires table_value { table_fits table ≡ true }
    requires table_in_bounds { at + length (bars_text table) ≤ length text.old }
    ensures value { result ≡ at + length (bars_text table) }
    ensures text_after { text.new ≡ sets text.old at (bars_text table) }
{
    let mut line = Text { bytes: text, at };
    line.put_word(b"bars");
    line.put_rows(table);
    line.put_byte(b'\n');
    line.at
}

impl Text<'_> {
    fn put_rows(&mut self, table: Table)
        requires table_value { table_fits table ≡ true }
        requires room { HasRoom self.old (rows_text table) }
        ensures { Wrote self.old self.new (rows_text table) }
    {
        for row in 0..table.config.n {
            self.put_bar(table, row);
        }
    }

    fn put_bar(&mut self, table: Table, row: usize)
        requires table_value { table_fits table ≡ true }
        requires row_bound { row < 7 }
        requires room { HasRoom self.old (bar_text table row) }
        ensures { Wrote self.old self.new (bar_text table row) }
    {
        let bar = table.bars[row] as u64;
        let run = run_bar(table, row) as u64;
        self.put_pair(bar, b'/', run);
    }
}

// The first column from 0 on whose slot is absent or has not run.
fn run_bar(table: Table, row: usize) -> usize
    requires table_value { table_fits table ≡ true }
    requires row_bound { row < 7 }
    ensures { result ≡ run_bar table row }
{
    let len = table.lens[row];
    for col in 0..len {
        if !table.slots[32 * row + col].has_run() {
            return col;
        }
    }
    len
}
