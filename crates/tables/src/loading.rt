// A sheet goes into the tables whole, or not at all.
ghost use Rattle.std.specs.Prelude.{List, Option};
ghost use Rattle.number.specs.declared.fault.ReadFault.{ReadFault};
ghost use Rattle.sheet.specs.declared.finding.Found.{Found};
ghost use Rattle.tables.specs.Loading.{Reads, ReadsInOneWay, Loads, Tidy};

use super::blank_state::Blank;
use super::draft_state::Draft;
use super::fault::LoadFault;
use super::lines::file_lines;
use layout::Tables;

// Whatever the tables held before is lost. Refused, they are all zero, and the blank is handed back.
pub fn load(
    blank: Blank,
    tables: &mut Tables,
    sheet: &[u8],
) -> Result<(Draft, usize), (Blank, LoadFault)>
    ensures reads { ReadsInOneWay sheet.now }
    ensures loads { (fs : List Found) (end : Option ReadFault) → Reads sheet.now fs end → Loads blank sheet.now fs end result tables.new }
    ensures holds { Tidy result tables.new }
{
    *tables = layout::blank();
    match file_lines(tables, sheet) {
        Ok(lines) => {
            let Blank { serial } = blank;
            Ok((Draft { serial, lines }, lines))
        }
        Err(fault) => {
            *tables = layout::blank();
            Err((blank, fault))
        }
    }
}
