// The tint table: four bytes a row, the colorant in the first and the shots in the upper two.
ghost use Rattle.std.specs.Prelude.{◌≡◌, IfOk, OnOk};
ghost use Rattle.calls.specs.Calls.{memory_through};
ghost use Rattle.tintboard.specs.Table.{colorant_access, shots_access, row_calls};

use crate::show;
use bus::{Access, Bus, PhysAddr, Refusal, Span};
use calls::{Call, write_verified};
use std::io;

// Which colorant, and how many shots of it go into a litre of base.
#[derive(Clone, Copy, PartialEq, Eq, Debug)]
pub(crate) struct Tint {
    colorant: u8,
    shots: u16,
}

const ROW_BYTES: usize = 4;

const ROWS: [Tint; 4] = [
    Tint {
        colorant: 7,
        shots: 312,
    },
    Tint {
        colorant: 12,
        shots: 45,
    },
    Tint {
        colorant: 3,
        shots: 1020,
    },
    Tint {
        colorant: 25,
        shots: 4,
    },
];

// Where the table lies, from `at` on.
pub(crate) fn span(at: PhysAddr) -> Span {
    Span::new(at, (ROWS.len() * ROW_BYTES) as u64)
}

fn colorant_access(place: PhysAddr) -> Access
    ensures { result ≡ colorant_access place.0 }
{
    Access::new(place, 1)
}

fn shots_access(place: PhysAddr) -> Access
    ensures { result ≡ shots_access place.0 }
{
    Access::new(place.wrapping_add(2), 2)
}

// Writes a row, and gives the row that the bus then holds: the same. Where the second write is refused, the first is done.
fn store<B: Bus>(board: &mut B, at: PhysAddr, row: Tint) -> Result<Tint, Refusal>
    ensures row { IfOk result (λ stored. stored ≡ row) }
    ensures after { OnOk result (B.byte board.new ≡ memory_through (B.byte board.old) (row_calls at.0 row)) }
{
    let colorant = write_verified(board, colorant_access(at), u32::from(row.colorant))?;
    let shots = write_verified(board, shots_access(at), u32::from(row.shots))?;
    Ok(Tint {
        colorant: colorant as u8,
        shots: shots as u16,
    })
}

// Loads the table from `at` on up to the first refusal, and prints each write that was read back.
pub(crate) fn load<B: Bus>(rt: &HostRuntime, board: &mut B, at: PhysAddr) -> anyhow::Result<()> {
    println!(rt; "tint table")?;
    for (row, offset) in ROWS.into_iter().zip((0u32..).step_by(ROW_BYTES)) {
        let place = at.wrapping_add(offset);
        match store(board, place, row) {
            Ok(stored) => show_stored(rt, place, stored)?,
            Err(refusal) => {
                println!(rt; "row {place}: {refusal}")?;
                return Ok(());
            }
        }
    }
    Ok(())
}

fn show_stored(rt: &HostRuntime, place: PhysAddr, row: Tint) -> io::Result<()> {
    let writes = [
        Call::Write {
            access: colorant_access(place),
            value: u32::from(row.colorant),
        },
        Call::Write {
            access: shots_access(place),
            value: u32::from(row.shots),
        },
    ];
    for write in writes {
        println!(rt; "{write}: done and read back")?;
    }
    Ok(())
}

// A row's bytes in every width: how far behind its first they begin, and how many they are.
const PIECES: [(u32, u32); 7] = [(0, 4), (0, 2), (2, 2), (0, 1), (1, 1), (2, 1), (3, 1)];

// Reads every row in every width.
pub(crate) fn read_back<B: Bus>(
    rt: &HostRuntime,
    board: &mut B,
    at: PhysAddr,
) -> anyhow::Result<()> {
    println!(rt; "read back")?;
    for offset in (0u32..).step_by(ROW_BYTES).take(ROWS.len()) {
        let place = at.wrapping_add(offset);
        let list = PIECES.map(|(behind, width)| -> Call {
            Call::Read(Access::new(place.wrapping_add(behind), width))
        });
        show::calls(rt, board, &list)?;
    }
    Ok(())
}
