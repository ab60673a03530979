// What the printer's reply says, by the service that it carries. Whatever a download has no use for is
// another reply.
ghost use Rattle.std.specs.Prelude.{◌≡◌};
ghost use Rattle.protocol.specs.Controller as controller;
ghost use Rattle.function_code.specs.Code.{class_of};
ghost use Rattle.access.specs.Route.{route_of};
ghost use Rattle.content.specs.Reading.{diagnosis_of, dpv1_answer_of, answer_of};
ghost use Rattle.controller_input.specs.Meaning.{got_by, got_of_data, got_of_route};

use crate::Reply;
use access::{Answering, Route};
use acyclic::{Answer, Function};
use fdl::Header;
use function_code::Class;

// A negative answer: a write's alone is DF.
fn negative(function: Function, code1: u8, code2: u8) -> Reply
    ensures { got_by result ≡ controller.negative_of function code1 code2 }
{
    match function {
        Function::Write => Reply::Negative { code1, code2 },
        Function::Read | Function::AlarmAck | Function::Transport => Reply::Other,
    }
}

// A DPV1 answer: a write's is 5F.
fn reply_of_dpv1(answer: Answer) -> Reply
    ensures { got_by result ≡ controller.got_of_dpv1 answer }
{
    match answer {
        Answer::Write {
            slot,
            index,
            length,
        } => Reply::Positive {
            slot,
            index,
            length,
        },
        Answer::Negative {
            function,
            decode: _,
            code1,
            code2,
        } => negative(function, code1, code2),
        Answer::Read { .. } | Answer::AlarmAck { .. } | Answer::Idle | Answer::Transport { .. } =>
            Reply::Other,
    }
}

// An answer of DPV1, where it can be read.
fn reply_by_dpv1(user: &[u8]) -> Reply
    ensures { got_by result ≡ got_of_data (dpv1_answer_of user.now) }
{
    match acyclic_reader::read_answer(user) {
        Ok(found) => reply_of_dpv1(found.fields),
        Err(_) => Reply::Other,
    }
}

// A diagnosis, where it can be read.
fn reply_by_diagnosis(user: &[u8]) -> Reply
    ensures { got_by result ≡ got_of_data (diagnosis_of user.now) }
{
    if diagnosis_reader::read(user).is_err() {
        return Reply::Other;
    }
    Reply::Diagnosis
}

// A diagnosis, a DPV1 answer, or a service that no request of a download asks for: that is another reply, whether its
// data can be read or not.
#[tactic(auto, unfolding(content::specs::Reading::answer_of), using(crate::proofs::Routed::plain_other, crate::proofs::Routed::configuration_other))]
fn answered(answering: Answering, user: &[u8]) -> Reply
    ensures { got_by result ≡ got_of_data (answer_of answering user.now) }
{
    match answering {
        Answering::Dpv1 => reply_by_dpv1(user),
        Answering::SlaveDiag => reply_by_diagnosis(user),
        Answering::DataExchange | Answering::RdInp | Answering::RdOutp | Answering::GetCfg =>
            Reply::Other,
    }
}

// What a telegram with this header and these user data says, whose function code is of this class. A call is another
// reply, whatever it asks for.
#[tactic(auto, using(access::proofs::Laws::class_route))]
pub(crate) fn routed(class: Class, header: Header, user: &[u8]) -> Reply
    requires { class ≡ class_of header.fc }
    ensures { got_by result ≡ got_of_route (route_of header) user.now }
{
    match routing::route_by(class, header) {
        Route::Answer(answering) => answered(answering, user),
        Route::Nowhere | Route::Call(_) => Reply::Other,
    }
}
