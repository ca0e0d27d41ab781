// What no clause says: the texts of faults. Whole programs are expanded in cases/.
use slice_expand::ExpandFault;
use std::test::Fail;

#[test]
fn faults_are_told_by_their_names(rt: HostRuntime) -> Result<(), Fail> {
    let alloc = rt.alloc();
    for (fault, want) in [
        (ExpandFault::NodeLimit, "NodeLimit"),
        (ExpandFault::DepthLimit, "DepthLimit"),
        (ExpandFault::CutLimit, "CutLimit"),
        (ExpandFault::CallLimit, "CallLimit"),
        (ExpandFault::Memory, "Memory"),
    ] {
        assert_eq!(rt; fault.to_string(alloc)?.as_str(), want);
    }
    Ok(())
}
