// The shift of one component at a position, by a grid message that is read once.
#![tactic(auto)]

ghost use Rattle.std.specs.Prelude.{◌≡◌};
ghost use Rattle.grid_fields.specs.Inner.{cell_says};
ghost use Rattle.grid_shifts.specs.Shift.{message_shift};
ghost use Rattle.grid_component.specs.Component.{counted};
ghost use Rattle.grid_component.specs.Inner.{kept_of, counted_by};

use arith::refusals::outcome_number;
use grid_counts::Counted;
use grid_fields::Nodes;
use record_grids::Settings;

// What is kept of a message: why it is no grid message, or 0 with its fields besides the shifts.
#[derive(Clone, Copy)]
pub struct Kept {
    pub refusal: u8,
    pub settings: Settings,
}

// What the nodes of a cell say of a component: each two of them are read by one load.
fn nodes_of(message: &[u8], component: u8, row: u64, column: u64) -> Nodes
    ensures { result ≡ cell_says message.now component row column }
{
    let n = grid_fields::cells_at(message, row, column);
    match component {
        0 => n.north,
        1 => n.east,
        _ => n.height,
    }
}

// What is kept of a message, which is read once.
pub fn keep(message: &[u8]) -> Kept
    ensures { result ≡ kept_of message.now }
{
    Kept {
        refusal: outcome_number(message_rows::check_kind(message, 1023, 1024)),
        settings: grid_fields::settings_at(message),
    }
}

// The shift of a component at a position, by what was kept of the message.
pub fn count_at(message: &[u8], kept: Kept, component: u8, north: i64, east: i64) -> Counted
    ensures { result ≡ counted_by message.now kept component north east }
{
    if kept.refusal != 0 {
        return grid_counts::refused(kept.refusal);
    }
    let f = kept.settings;
    let p = grid_place::locate(f, component, north, east);
    if p.refusal != 0 {
        return grid_counts::refused(p.refusal);
    }
    let k = grid_cell::weights_in(p.height, p.width, p.north, p.east);
    let mean = grid_fields::mean_at(message, component);
    let n = nodes_of(message, component, p.row, p.column);
    grid_counts::cell_count(f.number, component, mean, n, k)
}

// The same from a message's bytes.
pub fn part_at(message: &[u8], component: u8, north: i64, east: i64) -> Counted
    ensures { result ≡ counted (message_shift message.now component north east) }
{
    let kept = keep(message);
    count_at(message, kept, component, north, east)
}
