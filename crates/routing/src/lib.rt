// Which service a telegram's function code and access points name, and which way it goes (document 01,
// "Services by access point").
#![tactic(auto)]

ghost use Rattle.std.specs.Prelude.{◌≡◌};
ghost use Rattle.access.specs.Route.{uncounted_kind, kind_by, kind_of, named_by, is_global_control, call_route, command_route, answer_from, answer_route, points_with, points_by, way_by, route_by, header_with, header_of, service_route};

use access::{Answering, Kind, Points, Route, Service};
use access_table::{find, points_of};
use fdl::{Header, Sap};
use function_code::{Class, class_of};

// Functions 4 and 6 carry Global_Control, and no other uncounted call carries a service.
fn uncounted_kind(fc: u8) -> Kind
    ensures { result ≡ uncounted_kind fc }
{
    let function = fc % 16;
    match function {
        4 | 6 => Kind::Command,
        _ => Kind::Other,
    }
}

// The kind of telegram that a function code of this class makes.
fn kind_by(class: Class, fc: u8) -> Kind
    ensures { result ≡ kind_by class fc }
{
    match class {
        Class::Opening => Kind::Call,
        Class::Counted => Kind::Call,
        Class::Uncounted => uncounted_kind(fc),
        Class::Bare => Kind::Other,
        Class::Data => Kind::Answer,
        Class::Reserved => Kind::Other,
    }
}

fn kind_of(fc: u8) -> Kind
    ensures { result ≡ kind_of fc }
{
    kind_by(class_of(fc), fc)
}

// The service of the slave's and the master's access point. One of two names none.
fn named_by(slave: Sap, master: Sap) -> Option<Service>
    ensures { result ≡ named_by slave master }
{
    match (slave, master) {
        (None, None) => Some(Service::DataExchange),
        (Some(slave), Some(master)) => find(slave, master),
        _ => None,
    }
}

fn is_global_control(service: Service) -> bool
    ensures { result ≡ is_global_control service }
{
    service == Service::GlobalControl
}

// An opening or counted call carries any service but Global_Control.
fn call_route(named: Option<Service>) -> Route
    ensures { result ≡ call_route named }
{
    match named {
        None => Route::Nowhere,
        Some(service) => {
            if is_global_control(service) {
                return Route::Nowhere;
            }
            Route::Call(service)
        }
    }
}

// Functions 4 and 6 carry Global_Control alone.
fn command_route(named: Option<Service>) -> Route
    ensures { result ≡ command_route named }
{
    match named {
        None => Route::Nowhere,
        Some(service) => {
            if is_global_control(service) {
                return Route::Call(service);
            }
            Route::Nowhere
        }
    }
}

// The services that answer with data; an answer of any other goes the wrong way.
fn answer_from(service: Service) -> Route
    ensures { result ≡ answer_from service }
{
    match service {
        Service::DataExchange => Route::Answer(Answering::DataExchange),
        Service::Dpv1 => Route::Answer(Answering::Dpv1),
        Service::ExtUserPrm => Route::Nowhere,
        Service::SetSlaveAdr => Route::Nowhere,
        Service::RdInp => Route::Answer(Answering::RdInp),
        Service::RdOutp => Route::Answer(Answering::RdOutp),
        Service::GlobalControl => Route::Nowhere,
        Service::GetCfg => Route::Answer(Answering::GetCfg),
        Service::SlaveDiag => Route::Answer(Answering::SlaveDiag),
        Service::SetPrm => Route::Nowhere,
        Service::ChkCfg => Route::Nowhere,
    }
}

fn answer_route(named: Option<Service>) -> Route
    ensures { result ≡ answer_route named }
{
    match named {
        None => Route::Nowhere,
        Some(service) => answer_from(service),
    }
}

fn header_with(da: u8, sa: u8, fc: u8, dsap: Sap, ssap: Sap) -> Header
    ensures { result ≡ header_with da sa fc dsap ssap }
{
    Header {
        da,
        sa,
        fc,
        dsap,
        ssap,
    }
}

// The header of a service's telegram. A call goes to the slave's access point, and an answer comes
// from it: there the pair is turned round.
pub fn header_of(service: Service, da: u8, sa: u8, fc: u8) -> Header
    ensures { result ≡ header_of service da sa fc }
{
    let points = points_of(service);
    let slave = points.slave;
    let master = points.master;
    let kind = kind_of(fc);
    match kind {
        Kind::Call => header_with(da, sa, fc, slave, master),
        Kind::Command => header_with(da, sa, fc, slave, master),
        Kind::Answer => header_with(da, sa, fc, master, slave),
        Kind::Other => header_with(da, sa, fc, slave, master),
    }
}

fn points_with(slave: Sap, master: Sap) -> Points
    ensures { result ≡ points_with slave master }
{
    Points { slave, master }
}

// The slave's access point and the master's. A call goes to the slave's, and an answer comes from it.
fn points_by(kind: Kind, dsap: Sap, ssap: Sap) -> Points
    ensures { result ≡ points_by kind dsap ssap }
{
    match kind {
        Kind::Call => points_with(dsap, ssap),
        Kind::Command => points_with(dsap, ssap),
        Kind::Answer => points_with(ssap, dsap),
        Kind::Other => points_with(dsap, ssap),
    }
}

fn way_by(kind: Kind, named: Option<Service>) -> Route
    ensures { result ≡ way_by kind named }
{
    match kind {
        Kind::Call => call_route(named),
        Kind::Command => command_route(named),
        Kind::Answer => answer_route(named),
        Kind::Other => Route::Nowhere,
    }
}

// The route of a telegram with this header, whose function code is taken to be of this class: who has read the telegram
// has looked it up already. What can carry no service is not looked up. The list is searched in one place, so that the
// compiler puts the search here and its answer never stands in memory.
pub fn route_by(class: Class, header: Header) -> Route
    ensures { result ≡ route_by (kind_by class header.fc) header.dsap header.ssap }
{
    let dsap = header.dsap;
    let ssap = header.ssap;
    let kind = kind_by(class, header.fc);
    if let Kind::Other = kind {
        return Route::Nowhere;
    }
    let points = points_by(kind, dsap, ssap);
    let slave = points.slave;
    let master = points.master;
    way_by(kind, named_by(slave, master))
}

// The route of a telegram that is made for this service with this function code: no list has to be searched.
pub fn route_for(service: Service, fc: u8) -> Route
    ensures { result ≡ service_route service fc }
{
    way_by(kind_of(fc), Some(service))
}
