// The texts of faults.
ghost use Rattle.overlay_base.specs.declared.segm.fault.Fault.TheVariants.{Memory};

use overlay_base::segm::fault::*;
use std::test::Fail;

#[test]
fn fault_texts(rt: HostRuntime) -> Result<(), Fail> {
    let faults = (Fault::Memory, Fault::CountOutOfRange);
    let texts = format!(in rt.alloc(); "{}, {}", faults.0, faults.1)?;
    assert_eq!(rt; texts.as_str(), "out of memory, count out of range");
    Ok(())
}
