// Items of the plane that no overlay uses. Upstream: `geom`.

pub mod end;
pub mod v_segment;
