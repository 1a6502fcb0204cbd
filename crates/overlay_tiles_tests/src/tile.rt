// Which rectangles are tiles, for both engines.
use overlay_geometry::geom::rect::IntRect;
use overlay_tiles::tile::{Tile, TileFault};

/// A rectangle as the tables write it: its left, right, lower and upper border, and what is wrong with it.
struct Row {
    borders: [i32; 4],
    fault: Option<TileFault>,
}

static ROWS: [Row; 9] = [
    Row {
        borders: [0, 1, 0, 1],
        fault: None,
    },
    Row {
        borders: [-1_073_741_824, 1_073_741_823, -1_073_741_824, 1_073_741_823],
        fault: None,
    },
    Row {
        borders: [-1_073_741_825, 0, 0, 1],
        fault: Some(TileFault::OutOfRange),
    },
    Row {
        borders: [0, 1_073_741_824, 0, 1],
        fault: Some(TileFault::OutOfRange),
    },
    Row {
        borders: [1, 0, 1_073_741_824, 0],
        fault: Some(TileFault::OutOfRange),
    },
    Row {
        borders: [5, 5, 0, 1],
        fault: Some(TileFault::NotWide),
    },
    Row {
        borders: [6, 5, 1, 0],
        fault: Some(TileFault::NotWide),
    },
    Row {
        borders: [5, 6, 7, 7],
        fault: Some(TileFault::NotHigh),
    },
    Row {
        borders: [5, 6, 8, 7],
        fault: Some(TileFault::NotHigh),
    },
];

#[test]
fn rectangles_that_are_tiles(rt: HostRuntime) {
    for row in &ROWS {
        let [min_x, max_x, min_y, max_y] = row.borders;
        let rect = IntRect {
            min_x,
            max_x,
            min_y,
            max_y,
        };
        match Tile::new(rect) {
            Ok(tile) => assert!(rt; row.fault.is_none() && tile.rect() == rect),
            Err(fault) => assert!(rt; row.fault == Some(fault)),
        }
    }
}

/// The borders of the narrow engine are nearer.
#[test]
fn narrow_borders(rt: HostRuntime) {
    let rect = IntRect {
        min_x: -16_384_i16,
        max_x: 16_384,
        min_y: 0,
        max_y: 1,
    };
    match Tile::new(rect) {
        Ok(_) => assert!(rt; false),
        Err(fault) => assert!(rt; fault == TileFault::OutOfRange),
    }
}
