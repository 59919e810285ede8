// What goes wrong with a line, and how it is told.
use charts::InspectRefusal;
use refusals::Refusal;
use sheets::SheetFault;
use std::alloc::AllocError;
use std::io;
use thiserror::Error;

// Why a line is no call.
#[derive(Clone, Copy, Debug, Error)]
pub enum LineFault {
    #[error("no such call, or words too many or too few")]
    NoCall,
    #[error("an id is a number up to 255")]
    NoId,
    #[error("a figure is a number up to 65535")]
    NoFigure,
    #[error("a tick is a number up to 4294967295")]
    NoTick,
    #[error("the name of a file is no text")]
    NoFile,
}

// Why a line has another answer than `ok`: the library refuses the call or a sheet, or there is a fault in the line, or with
// a file, or no room.
#[derive(Clone, Copy, Debug, Error)]
pub enum Failure {
    #[error(transparent)]
    Refused(#[from] Refusal),
    #[error(transparent)]
    Faulty(#[from] SheetFault),
    #[error(transparent)]
    Line(#[from] LineFault),
    #[error("the file cannot be read")]
    Unread,
    #[error("the file cannot be written")]
    Unwritten,
    #[error("no memory is left")]
    Memory(#[from(alloc)] AllocError),
}

impl From<InspectRefusal> for Failure {
    fn from(refusal: InspectRefusal) -> Failure {
        match refusal {
            InspectRefusal::FaultySheet(fault) => Failure::Faulty(fault),
            InspectRefusal::RefusedList(refusal) => Failure::Refused(refusal),
        }
    }
}

// Tells a refusal by its number and in words.
pub fn tell_refusal(rt: &HostRuntime, refusal: Refusal) -> io::Result<()> {
    println!(rt; "refused {} {refusal}", refusal.number())
}

// Tells a fault of a sheet by its number, its layer, its place, the number of a wrong figure, and in words.
pub fn tell_fault(rt: &HostRuntime, fault: SheetFault) -> io::Result<()> {
    let number = fault.number();
    let layer = fault.layer();
    let place = fault.place();
    match fault.cause() {
        Some(cause) => {
            println!(rt;
                "refused {number} layer {layer} place {place} because {} {fault}",
                cause.number()
            )
        }
        None => println!(rt; "refused {number} layer {layer} place {place} {fault}"),
    }
}
