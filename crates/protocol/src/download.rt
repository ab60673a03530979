// The download: what it answers.
use crate::controller::Ending;
use crate::printer::Printer;

// What a download came to.
#[derive(Clone, Copy)]
pub struct Downloaded {
    pub ending: Ending,
    pub sent: u16,
    pub printer: Printer,
}
