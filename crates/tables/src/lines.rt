// Files the lines of a sheet.
ghost use Rattle.std.specs.Prelude.{◌≡◌, List, length, Option};
ghost use Rattle.number.specs.declared.fault.ReadFault.{ReadFault};
ghost use Rattle.sheet.specs.declared.finding.Found.{Found};
ghost use Rattle.sheet.specs.Showing.{shows};
ghost use Rattle.layout.specs.Network.{network, stored, empty, Holds};
ghost use Rattle.filing.specs.Rows.{row_shown};
ghost use Rattle.filing.specs.Filing.{placed, before_after, network_after};
ghost use Rattle.tables.specs.Loading.{Reads, sheet_loaded, line_filed, Filed};

use super::fault::LoadFault;
use filing::{Before, Filing, Row};
use layout::Tables;
use sheet::{Line, Reader};

// Files one line, under its number; what is then known of the lines before.
fn file_line(filing: &mut Filing<'_>, number: usize, line: Line<'_>) -> Result<Before, LoadFault>
    ensures same_reference { filing.new.tables.ghost_name ≡ filing.old.tables.ghost_name }
    ensures answer { result ≡ line_filed number (placed filing.old.before (network filing.old.tables.now) (row_shown (shows line.entry))) }
    ensures before { filing.new.before ≡ before_after filing.old.before (placed filing.old.before (network filing.old.tables.now) (row_shown (shows line.entry))) }
    ensures after { Holds filing.new.tables.now (network_after (placed filing.old.before (network filing.old.tables.now) (row_shown (shows line.entry))) (network filing.old.tables.now) (row_shown (shows line.entry))) }
{
    filing
        .file(Row::from(line))
        .map_err(|why| LoadFault::at(number, why))
}

// Files all lines, and counts them; up to the first fault.
pub(crate) fn file_lines(tables: &mut Tables, sheet: &[u8]) -> Result<usize, LoadFault>
    requires blank { tables.old ≡ stored empty }
    ensures answer { (fs : List Found) (end : Option ReadFault) → Reads sheet.now fs end → Filed result tables.new (length fs) (sheet_loaded sheet.now fs end) }
    ensures holds { Holds tables.new (network tables.new) }
{
    let mut reader = Reader::new(sheet);
    let mut filing = Filing::new(tables, Before::default());
    let mut line = 0;
    while let Some(placed) = reader
        .next_line()
        .map_err(|fault| LoadFault::Unreadable { line, fault })?
    {
        file_line(&mut filing, line, placed.line)?;
        // The count is the answer, and a reader at a fault never ends, so it is no iterator to enumerate.
        line += 1;
    }
    Ok(line)
}
