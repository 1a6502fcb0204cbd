// Fragments of a segment in the columns of a grid.
use crate::case::{Case, Stop, Summary, mixed, refused};
use i_overlay::geom::point::IntPoint;
use i_overlay::geom::x_segment::XSegment;
use i_overlay::num::OverlayInt;
use i_overlay::split::grid_layout::{FragmentBuffer, GridLayout};
use std::alloc::Global;

/// A segment is added to a buffer. A refused one leaves every group empty.
#[derive(Drop)]
pub struct Fragments {}

impl Case for Fragments {
    fn try_once(&mut self, alloc: Global) -> Result<Summary, Stop> {
        let Some(layout) = GridLayout::with_min_max(0, 12, 2) else {
            return Err(Stop::Wrong("no layout"));
        };
        let mut buffer = FragmentBuffer::new(alloc, layout)?;
        let segment = XSegment {
            a: IntPoint::new(0, 0),
            b: IntPoint::new(12, 5),
        };
        match buffer.add_segment(0, segment) {
            Ok(()) => Ok(summary_of(&buffer)),
            Err(fault) => {
                let is_empty = buffer.groups().iter().all(|group| group.is_empty());
                Err(refused(fault, is_empty))
            }
        }
    }
}

/// How many fragments there are, and a number made of all of them.
fn summary_of(buffer: &FragmentBuffer<i32>) -> Summary {
    let (mut count, mut digest): (u128, i64) = (0, 0);
    for group in buffer.groups() {
        for fragment in group.iter() {
            count = count.saturating_add(1);
            digest = mixed(mixed(digest, fragment.rect.min_y), fragment.rect.max_y);
        }
    }
    Summary {
        count: buffer.groups().len(),
        others: count,
        digest,
    }
}
