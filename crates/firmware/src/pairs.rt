// The calls for C that write a pair of numbers to the first two entries of a lent run. Each answers 1; refused, it leaves the run as it is. They are alike
// and stand apart, since C knows each by its name.

ghost use Rattle.std.specs.Prelude.{◌≡◌, [], ◌∷◌};
ghost use Rattle.hexes.specs.Answers.{origin};
ghost use Rattle.hexes.specs.Tiles.{tile};
ghost use Rattle.storage.specs.Hexagonal.{row_column, to_row_column, FromRowColumn};
ghost use Rattle.storage.specs.Hexmod.{index, FromHexmod};
ghost use Rattle.conversions.specs.Grid.{pair};
ghost use Rattle.conversions.specs.Offset.{to_offset, FromOffset};
ghost use Rattle.conversions.specs.Doubled.{to_doubled, FromDoubled};
ghost use Rattle.firmware.specs.Calls.{map_at};
ghost use Rattle.runs.specs.Runs.{Lists};
ghost use Rattle.firmware.specs.Lists.{ListCall};
ghost use Rattle.firmware.specs.Pairs.{of_tile, of_grid, of_row_column, told_by, Signed, PairCall};

use crate::{answer_told, map_at};
use conversions::GridPair;
use hexes::{Refusal, Tile};
use storage::{Index, RowColumn};

// The two entries of a pair of a grid, named as a tile's coordinates are: its column first.
fn of_grid(pair: GridPair) -> Tile
    ensures { result ≡ of_grid pair }
{
    Tile {
        x: pair.column,
        y: pair.row,
    }
}

// The two entries of a row and a column, the row first.
fn of_row_column(at: RowColumn) -> Tile
    requires { Signed at }
    ensures { result ≡ of_row_column at }
{
    Tile {
        x: at.row as i32,
        y: at.column as i32,
    }
}

// Lays a pair in the run, where it is found and the run has room for it, and answers that it is one.
fn laid(pair: Result<Tile, Refusal>, run: &mut [i32]) -> Result<u32, Refusal>
    ensures { Lists (told_by origin pair).number ((told_by origin pair).value ∷ []) run.old result run.new }
{
    let entries = pair?;
    if run.len() < 2 {
        return Err(Refusal::RunTooShort);
    }
    runs::put(run, 0, entries);
    Ok(1)
}

// The same, as C is told it.
fn written(pair: Result<Tile, Refusal>, run: &mut [i32]) -> i64
    ensures { ListCall (told_by origin pair).number ((told_by origin pair).value ∷ []) run.old run.new result }
{
    answer_told(laid(pair, run))
}

// The tile of a map that has an index.
#[unsafe(no_mangle)]
pub extern "C" fn kyrla_tile(cx: i32, cy: i32, radius: u32, at: u32, run: &mut [i32]) -> i64
    ensures { PairCall (FromHexmod (map_at cx cy radius) (index at)) of_tile run.old run.new result }
{
    let map = map_at(cx, cy, radius);
    let pair = storage::from_hexmod_coordinates(map, Index(at));
    written(pair, run)
}

// The row and the column of a tile of a map, the row first.
#[unsafe(no_mangle)]
pub extern "C" fn kyrla_row_column(
    cx: i32,
    cy: i32,
    radius: u32,
    x: i32,
    y: i32,
    run: &mut [i32],
) -> i64
    ensures { PairCall (λ told. told ≡ to_row_column (map_at cx cy radius) (tile x y)) of_row_column run.old run.new result }
{
    let map = map_at(cx, cy, radius);
    let pair = storage::to_row_column(map, Tile { x, y }).map(of_row_column);
    written(pair, run)
}

// The tile of a map that has a row and a column.
#[unsafe(no_mangle)]
pub extern "C" fn kyrla_tile_at(
    cx: i32,
    cy: i32,
    radius: u32,
    row: u32,
    column: u32,
    run: &mut [i32],
) -> i64
    ensures { PairCall (FromRowColumn (map_at cx cy radius) (row_column row column)) of_tile run.old run.new result }
{
    let map = map_at(cx, cy, radius);
    let pair = storage::from_row_column(map, RowColumn { row, column });
    written(pair, run)
}

// The offset coordinates of a tile, the column first.
#[unsafe(no_mangle)]
pub extern "C" fn kyrla_to_offset(
    x: i32,
    y: i32,
    mode: u32,
    orientation: u32,
    run: &mut [i32],
) -> i64
    ensures { PairCall (λ told. told ≡ to_offset (tile x y) mode orientation) of_grid run.old run.new result }
{
    let tile = Tile { x, y };
    let pair = conversions::to_offset_coordinates(tile, mode, orientation).map(of_grid);
    written(pair, run)
}

// The tile that has a pair of offset coordinates.
#[unsafe(no_mangle)]
pub extern "C" fn kyrla_from_offset(
    column: i32,
    row: i32,
    mode: u32,
    orientation: u32,
    run: &mut [i32],
) -> i64
    ensures { PairCall (FromOffset (pair column row) mode orientation) of_tile run.old run.new result }
{
    let asked = GridPair { column, row };
    let pair = conversions::from_offset_coordinates(asked, mode, orientation);
    written(pair, run)
}

// The doubled coordinates of a tile, the column first.
#[unsafe(no_mangle)]
pub extern "C" fn kyrla_to_doubled(x: i32, y: i32, mode: u32, run: &mut [i32]) -> i64
    ensures { PairCall (λ told. told ≡ to_doubled (tile x y) mode) of_grid run.old run.new result }
{
    let tile = Tile { x, y };
    let pair = conversions::to_doubled_coordinates(tile, mode).map(of_grid);
    written(pair, run)
}

// The tile that has a pair of doubled coordinates.
#[unsafe(no_mangle)]
pub extern "C" fn kyrla_from_doubled(column: i32, row: i32, mode: u32, run: &mut [i32]) -> i64
    ensures { PairCall (FromDoubled (pair column row) mode) of_tile run.old run.new result }
{
    let asked = GridPair { column, row };
    let pair = conversions::from_doubled_coordinates(asked, mode);
    written(pair, run)
}
