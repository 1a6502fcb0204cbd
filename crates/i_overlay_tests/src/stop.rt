// The text and the exit status of each refusal. No run is short enough for a count out of range: each line counts 1.
use overlay_base::segm::fault::Fault;
use overlay_text::stop::Stop;
use std::test::Fail;

#[test]
fn refusals_have_a_text_and_a_status(rt: HostRuntime) -> Result<(), Fail> {
    let texts = [
        (Fault::Memory, "out of memory"),
        (Fault::CountOutOfRange, "count out of range"),
    ];
    for (fault, text) in texts {
        let stop = Stop::Refused(fault);
        let written = format!(in rt.alloc(); "{stop}")?;
        assert_eq!(rt; written.as_str(), text);
        assert_eq!(rt; stop.status(), 4);
    }
    Ok(())
}
