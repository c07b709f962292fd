// The limits of what may be handed in, and the marks of the tables, each named once. `specs/Limits` names the same numbers for the promises.

// A coordinate handed in lies from -1,000,000 to 1,000,000.
pub const COORDINATE: u64 = 1_000_000;

// A ring's range is at most this.
pub const RANGE: u32 = 1_000;

// A map's radius is at most this.
pub const RADIUS: u32 = 60;

// The map of the largest radius has this many tiles, and no other has more.
pub const AREA: usize = 3 * RADIUS as usize * (RADIUS as usize + 1) + 1;

// The effort of a tile that nobody may enter. This mark and the two below are numbers, since the tables that hold them are lent by C.
pub const BARRED: u16 = 65_535;

// The total of a tile to which no way leads.
pub const NO_WAY: u32 = 4_294_967_295;

// What one unit of cost counts in a rank, which is the cost times this and the number of steps. `Rattle.routes.specs.Ranks` names this and the next for the promises.
pub const RANK_UNIT: u64 = 65_536;

// The rank of a tile from which no route leads.
pub const NO_RANK: u64 = 18_446_744_073_709_551_615;
