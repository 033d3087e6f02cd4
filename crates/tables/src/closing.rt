// Gives up what was loaded.
ghost use Rattle.std.specs.Prelude.{◌≡◌};
ghost use Rattle.layout.specs.Network.{stored, empty};

use super::blank_state::Blank;
use super::draft_state::Draft;
use layout::Tables;

// The tables are all zero then.
pub fn close(draft: Draft, tables: &mut Tables) -> Blank
    ensures answer { result ≡ record { serial = draft.serial } }
    ensures after { tables.new ≡ stored empty }
{
    *tables = layout::blank();
    let Draft { serial, lines: _ } = draft;
    Blank { serial }
}
