// The controller's end: what is set for a download, what it remembers between two replies, and what
// its step answers. Templates are counted from 1.

// The addresses of both ends; R, how often a request is sent again; P, how often a result is asked for.
#[derive(Clone, Copy)]
pub struct Settings {
    pub printer: u8,
    pub controller: u8,
    pub repeats: u8,
    pub polls: u8,
}

// What a request is for: to write a template, or to poll for its result, with so many polls left
// after this one.
#[derive(Clone, Copy)]
pub enum Job {
    Write,
    Poll { left: u8 },
}

// The request that was sent last: none; the opening; or a job for a template, with its FCB and how
// often it may be sent again.
#[derive(Clone, Copy)]
pub enum Controller {
    Fresh,
    Opening,
    Asking {
        template: u8,
        job: Job,
        fcb: bool,
        repeats: u8,
    },
}

// How a download ends, and at which template.
#[derive(Clone, Copy)]
pub enum Ending {
    Done,
    NoOpening,
    NoAnswer { template: u8 },
    NotReady { template: u8 },
    Refused { template: u8, code1: u8, code2: u8 },
    Strange { template: u8 },
}

// The request at the front of the lent buffer, of so many bytes, is sent next; or the download ends; or
// a refusal, which changes nothing.
#[derive(Clone, Copy)]
pub enum Action {
    Send { controller: Controller, request: u8 },
    End(Ending),
}
