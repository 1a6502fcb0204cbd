// The output where a relation is wanted: a line of nine letters.
ghost use Rattle.std.specs.Prelude.{◌≡◌, ◌⊎◌, ◌++◌, Ok, Err, OnOk, IfOk, IfErr, string_bytes};
ghost use Rattle.overlay_base.specs.declared.segm.fault.Fault.TheVariants.{Memory};
ghost use Rattle.overlay_contours.specs.Kept.{subject_of, clip_of};
ghost use Rattle.overlay_text.specs.declared.stop.Stop.{Stop};
ghost use Rattle.polygons.specs.RelationText.{letter, row_text, relation_line, stop_of, IsRelationText};

use overlay_base::segm::fault::Fault;
use overlay_base::segm::shape_type::ShapeType;
use overlay_contours::fault::ContourFault;
use overlay_contours::overlay::Overlay;
use overlay_geometry::num::OverlayInt;
use overlay_relations::fault::RelationFault;
use overlay_relations::matrix::{Part, Relation, relate};
use overlay_text::settings::Settings;
use overlay_text::stop::Stop;
use std::alloc::{AllocError, Global};

/// The text of the relation of the contours of an overlay.
pub fn relation_text<I: OverlayInt>(
    alloc: Global,
    overlay: &Overlay<I>,
    settings: Settings,
) -> Result<String, Stop>
    ensures text { IfOk result (λ text. IsRelationText settings.fill_rule (subject_of overlay.now) (clip_of overlay.now)
        (Ok (string_bytes text))) }
    ensures stop { IfErr result (λ stop. (stop ≡ Stop.Refused Memory)
        ⊎ IsRelationText settings.fill_rule (subject_of overlay.now) (clip_of overlay.now) (Err stop)) }
{
    let subject = overlay.contours(ShapeType::Subject);
    let clip = overlay.contours(ShapeType::Clip);
    match relate(alloc, subject, clip, &settings.solver(), settings.fill_rule) {
        Ok(relation) => {
            let mut text = String::new(alloc);
            write_relation(&mut text, &relation)?;
            Ok(text)
        }
        Err(fault) => Err(stop_of(fault)),
    }
}

/// Why a run stops where a relation is refused. Points of an overlay are in range.
fn stop_of(fault: RelationFault) -> Stop
    ensures { result ≡ stop_of fault }
{
    match fault {
        RelationFault::NotExact(ShapeType::Subject) => Stop::SubjectNotExact,
        RelationFault::NotExact(ShapeType::Clip) => Stop::ClipNotExact,
        RelationFault::Refused(ContourFault::Refused(fault)) => Stop::Refused(fault),
        RelationFault::Refused(ContourFault::OutOfRange { .. }) => Stop::Refused(Fault::Memory),
    }
}

/// Writes nine letters: those of the interior, of the boundary and of the exterior of the subject.
fn write_relation(text: &mut String, relation: &Relation) -> Result<(), AllocError>
    ensures { OnOk result (string_bytes text.new ≡ string_bytes text.old ++ relation_line relation.now) }
{
    write_row(text, relation, Part::Interior)?;
    write_row(text, relation, Part::Boundary)?;
    write_row(text, relation, Part::Exterior)?;
    text.push_str("\n")
}

/// Writes the letters of a part of the subject with each part of the clip.
fn write_row(text: &mut String, relation: &Relation, part: Part) -> Result<(), AllocError>
    ensures { OnOk result (string_bytes text.new ≡ string_bytes text.old ++ row_text relation.now part) }
{
    write_letter(text, relation.meets(part, Part::Interior))?;
    write_letter(text, relation.meets(part, Part::Boundary))?;
    write_letter(text, relation.meets(part, Part::Exterior))
}

/// Writes `T` where parts meet, and else `F`.
fn write_letter(text: &mut String, meet: bool) -> Result<(), AllocError>
    ensures { OnOk result (string_bytes text.new ≡ string_bytes text.old ++ letter meet) }
{
    text.push_str(if meet { "T" } else { "F" })
}
