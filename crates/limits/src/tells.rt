// One line for each question, with what the code answers.
use std::io;
use tables::LoadFault;

pub(crate) fn tell_refusal(
    rt: &HostRuntime,
    what: &str,
    fault: LoadFault,
    left: &str,
) -> io::Result<()> {
    let number = fault.number();
    match fault {
        LoadFault::Unreadable { line, fault } => {
            let byte = fault.byte;
            println!(rt; "{what} -> refused {number} line {line} byte {byte}, {left}")
        }
        LoadFault::OutOfPlace { line } | LoadFault::Full { line } => {
            println!(rt; "{what} -> refused {number} line {line}, {left}")
        }
    }
}
