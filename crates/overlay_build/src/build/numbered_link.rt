// What holds a link of a graph, in any layout. Upstream: none, since its links have one layout.
ghost use Rattle.std.specs.Prelude.{◌≡◌};
ghost use Rattle.overlay_base.specs.declared.overlay_core.link.OverlayLink.{OverlayLink};

use overlay_base::overlay_core::link::OverlayLink;
use overlay_geometry::geom::point::IntPoint;
use overlay_geometry::num::OverlayInt;

/// What holds a link, whose ends get the numbers of their nodes. An `impl` names the link that it stands for.
pub trait NumberedLink {
    /// What the coordinates of its ends are.
    type Coordinate: OverlayInt;

    /// What the data of its segment is.
    type Data;

    ghost link: { Self → OverlayLink Self.Coordinate Self.Data };

    /// Where its first end lies.
    fn start(&self) -> IntPoint<Self::Coordinate>
        ensures { result ≡ (link self.now).a.point };

    /// Where its second end lies.
    fn end(&self) -> IntPoint<Self::Coordinate>
        ensures { result ≡ (link self.now).b.point };

    /// Gives the first end the number of its node, and changes nothing else.
    fn number_start(&mut self, id: usize)
        ensures { link self.new ≡ record (link self.old) { a = record { id = id; point = (link self.old).a.point } } };

    /// Gives the second end the number of its node, and changes nothing else.
    fn number_end(&mut self, id: usize)
        ensures { link self.new ≡ record (link self.old) { b = record { id = id; point = (link self.old).b.point } } };
}

impl<I: OverlayInt, D: Copy> NumberedLink for OverlayLink<I, D> {
    type Coordinate = I;

    type Data = D;

    ghost link = { λ l. l };

    fn start(&self) -> IntPoint<I> {
        self.a.point
    }

    fn end(&self) -> IntPoint<I> {
        self.b.point
    }

    fn number_start(&mut self, id: usize) {
        self.a.id = id;
    }

    fn number_end(&mut self, id: usize) {
        self.b.id = id;
    }
}
