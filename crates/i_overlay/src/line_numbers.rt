// Lines that polygons cut, with the numbers of the lines: which given ones run along each part. This project's own.
ghost use Rattle.std.specs.Prelude.{◌≡◌, [], IsTrue, IsFalse, OnOk, OnErr, IfOk, IfErr};
ghost use Rattle.overlay_base.specs.ArrangedOf.{IsSplittable, IsArranged};
ghost use Rattle.overlay_base.specs.FaultOf.{OnTooLarge};
ghost use Rattle.overlay_base.specs.SegmentOf.{segments_of};
ghost use Rattle.overlay_contours.specs.Splittings.{SumsLeaveRange};
ghost use Rattle.i_overlay.specs.LineNumbers.{SplitsLines, line_counts_of, line_numbers_of};
ghost use Rattle.i_overlay.specs.SplitterOf.{splitting_over, course_over, LooksAreFew, IsSetAsBefore};

use crate::number_lists::{NumberLists, StringSegment, keep_numbers, keep_segments, number_lines};
use crate::splitter::Splitter;
use overlay_base::overlay_core::solver::Solver;
use overlay_base::segm::fault::Fault;
use overlay_geometry::num::OverlayInt;
use std::alloc::Global;

/// Which given lines run along each segment of an arrangement: the numbers of the last split.
#[derive(Drop)]
pub struct LineNumbers {
    alloc: Global,
    wanted: usize,
    counts: Vec<usize>,
    numbers: Vec<usize>,
}

impl LineNumbers {
    /// The numbers of no segments, which take no memory yet.
    pub fn new(alloc: Global) -> LineNumbers {
        LineNumbers {
            alloc,
            wanted: 0,
            counts: Vec::new(alloc),
            numbers: Vec::new(alloc),
        }
    }

    /// How many given lines run along each segment.
    pub fn counts(&self) -> &[usize]
        ensures { result.now ≡ line_counts_of self.now }
    {
        &self.counts
    }

    /// The indexes of these lines in the given list, segment by segment.
    pub fn numbers(&self) -> &[usize]
        ensures { result.now ≡ line_numbers_of self.now }
    {
        &self.numbers
    }

    /// Splits polygons and lines as the splitter does, and finds which given lines run along each segment that is left.
    ///
    /// The list has to be splittable, as `is_splittable` tests; afterwards it is the arrangement. A segment has the index of
    /// each given line that has it as a part. Parts that fall on one another are one segment, with the indexes of all. A line
    /// that comes there twice is there twice.
    ///
    /// Where lines overlap more than their number lets expect, the list is split a second time, by the room that the first
    /// split was found to take. A list that `is_arranged` stays as it is.
    ///
    /// Returns the faults of `Splitter::split_segments`. Where a call is refused the list is empty, and nothing is promised
    /// of the numbers. Splitter and numbers can be used again.
    pub fn split<I: OverlayInt>(
        &mut self,
        splitter: &mut Splitter<I>,
        segments: &mut Vec<StringSegment<I>>,
        solver: &Solver,
    ) -> Result<(), Fault>
        requires { IsSplittable segments.old.items }
        ensures split { OnOk result (SplitsLines (course_over solver.now splitter.old splitter.new segments.old)
            (segments_of segments.old.items) (segments_of segments.new.items) self.new) }
        ensures arranged { IsArranged segments.new.items }
        ensures unchanged { IsArranged segments.old.items → OnOk result
            (segments_of segments.new.items ≡ segments_of segments.old.items) }
        ensures too_large { OnTooLarge result (SumsLeaveRange (splitting_over solver.now splitter.old segments.old)
            (segments_of segments.old.items)) }
        ensures emptied { OnErr result (segments.new.items ≡ []) }
        ensures looked { OnOk result (LooksAreFew solver.now splitter.old splitter.new segments.old) }
        ensures settings { IsSetAsBefore splitter.old splitter.new }
    {
        let split = self.split_with_enough_room(splitter, segments, solver);
        if split.is_err() {
            segments.clear();
        }
        split
    }

    /// Splits as `split` does, but a refused split may leave any list.
    fn split_with_enough_room<I: OverlayInt>(
        &mut self,
        splitter: &mut Splitter<I>,
        segments: &mut Vec<StringSegment<I>>,
        solver: &Solver,
    ) -> Result<(), Fault>
        requires { IsSplittable segments.old.items }
        ensures split { OnOk result (SplitsLines (course_over solver.now splitter.old splitter.new segments.old)
            (segments_of segments.old.items) (segments_of segments.new.items) self.new) }
        ensures arranged { OnOk result (IsArranged segments.new.items) }
        ensures unchanged { IsArranged segments.old.items → OnOk result
            (segments_of segments.new.items ≡ segments_of segments.old.items) }
        ensures too_large { OnTooLarge result (SumsLeaveRange (splitting_over solver.now splitter.old segments.old)
            (segments_of segments.old.items)) }
        ensures looked { OnOk result (LooksAreFew solver.now splitter.old splitter.new segments.old) }
        ensures settings { IsSetAsBefore splitter.old splitter.new }
    {
        let room = segments.len().saturating_mul(2).saturating_add(64);
        if self.split_in_room(splitter, segments, solver, room)? {
            return Ok(());
        }
        let room = self.wanted;
        if self.split_in_room(splitter, segments, solver, room)? {
            return Ok(());
        }
        Err(Fault::Memory)
    }

    /// Splits as `split` does with room for so many numbers, and returns whether that is enough. If it is not, the list stays,
    /// and `wanted` is the room that it takes. A refused split may leave any list.
    fn split_in_room<I: OverlayInt>(
        &mut self,
        splitter: &mut Splitter<I>,
        segments: &mut Vec<StringSegment<I>>,
        solver: &Solver,
        room: usize,
    ) -> Result<bool, Fault>
        requires { IsSplittable segments.old.items }
        ensures split { IfOk result (λ enough. IsTrue enough → SplitsLines (course_over solver.now splitter.old splitter.new
            segments.old) (segments_of segments.old.items) (segments_of segments.new.items) self.new) }
        ensures arranged { IfOk result (λ enough. IsTrue enough → IsArranged segments.new.items) }
        ensures unchanged { IsArranged segments.old.items → IfOk result (λ enough. IsTrue enough →
            segments_of segments.new.items ≡ segments_of segments.old.items) }
        ensures stays { IfOk result (λ enough. IsFalse enough → segments.new ≡ segments.old) }
        ensures too_large { OnTooLarge result (SumsLeaveRange (splitting_over solver.now splitter.old segments.old)
            (segments_of segments.old.items)) }
        ensures looked { OnOk result (LooksAreFew solver.now splitter.old splitter.new segments.old) }
        ensures settings { IsSetAsBefore splitter.old splitter.new }
    {
        let mut lists = NumberLists::with_room(self.alloc, segments.len(), room)?;
        let mut list = Vec::new(self.alloc);
        number_lines(segments, &mut list)?;
        splitter.split_segments_with_store(&mut list, solver, &mut lists)?;
        if !lists.is_whole() {
            self.wanted = lists.used();
            return Ok(false);
        }
        keep_segments(&list, segments)?;
        keep_numbers(&list, &lists, &mut self.counts, &mut self.numbers)?;
        Ok(true)
    }
}
