// The points that lines of a text spell, `COMPONENT NORTH EAST`: the first 1,001 are held.

// The first `count` points, in the three lists that `sample_writer::write_samples` takes, and the first refusal of a point behind 1,001, or 0.
#[derive(Drop)]
pub(crate) struct Points {
    pub(crate) components: [u8; 1001],
    pub(crate) north: [i64; 1001],
    pub(crate) east: [i64; 1001],
    pub(crate) count: usize,
    pub(crate) later: u8,
}

pub(crate) fn none() -> Points {
    Points {
        components: [0; 1001],
        north: [0; 1001],
        east: [0; 1001],
        count: 0,
        later: 0,
    }
}

// The point that a line spells, held behind those that are; of a point behind 1,001 only the refusal is kept. None where the line spells no point.
pub(crate) fn take_point(s: &[u8], message: &[u8], points: &mut Points) -> Option<()> {
    let component = text_numerals::small(text_words::word(s))?;
    let rest = text_words::rest(s);
    let north = text_numerals::whole(text_words::word(rest))?;
    let east = text_numerals::whole(text_words::rest(rest))?;
    let k = points.count;
    if k < 1001 {
        points.components[k] = component;
        points.north[k] = north;
        points.east[k] = east;
        points.count = k + 1;
    } else if points.later == 0 {
        points.later = grid_component::part_at(message, component, north, east).refusal;
    }
    Some(())
}
