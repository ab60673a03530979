// The list of access points (document 01, "Services by access point"): each slave's access point has one
// service.
#![tactic(auto)]

ghost use Rattle.std.specs.Prelude.{◌≡◌, ◌<◌};
ghost use Rattle.access.specs.Table.{look, services, points_in, row_at, points_of};

use access::{
    CHK_CFG, DPV1, EXT_USER_PRM, GET_CFG, GLOBAL_CONTROL, MASTER, Points, RD_INP, RD_OUTP, Row,
    SET_PRM, SET_SLAVE_ADR, SLAVE_DIAG, Service,
};
use fdl::Sap;

// DPV1 first, which nearly every telegram of a download carries.
const SERVICES: [Row; 10] = [
    Row {
        slave: DPV1,
        master: DPV1,
        service: Service::Dpv1,
    },
    Row {
        slave: EXT_USER_PRM,
        master: MASTER,
        service: Service::ExtUserPrm,
    },
    Row {
        slave: SET_SLAVE_ADR,
        master: MASTER,
        service: Service::SetSlaveAdr,
    },
    Row {
        slave: RD_INP,
        master: MASTER,
        service: Service::RdInp,
    },
    Row {
        slave: RD_OUTP,
        master: MASTER,
        service: Service::RdOutp,
    },
    Row {
        slave: GLOBAL_CONTROL,
        master: MASTER,
        service: Service::GlobalControl,
    },
    Row {
        slave: GET_CFG,
        master: MASTER,
        service: Service::GetCfg,
    },
    Row {
        slave: SLAVE_DIAG,
        master: MASTER,
        service: Service::SlaveDiag,
    },
    Row {
        slave: SET_PRM,
        master: MASTER,
        service: Service::SetPrm,
    },
    Row {
        slave: CHK_CFG,
        master: MASTER,
        service: Service::ChkCfg,
    },
];

// The service that a pair of access points names in the list. It is searched from its last row to its
// first, so that the first row with the pair is the one that counts. The rows are taken once, ahead of
// the loop: the compiler then makes one test of the slave's access point of all of them, and no list
// stands in the frame.
pub fn find(slave: u8, master: u8) -> Option<Service>
    ensures { result ≡ look slave master services }
{
    let rows = SERVICES;
    let mut named = None;
    for row in rows.iter().rev() {
        if row.slave == slave {
            if row.master == master {
                let service = row.service;
                named = Some(service);
            }
        }
    }
    named
}

fn points_at(i: usize) -> Points
    requires { i < 10 }
    ensures { result ≡ points_in (row_at i) }
{
    let row = SERVICES[i];
    Points {
        slave: Some(row.slave),
        master: Some(row.master),
    }
}

// The access points of a service: the row in which the list has it.
pub fn points_of(service: Service) -> Points
    ensures { result ≡ points_of service }
{
    match service {
        Service::DataExchange => Points {
            slave: None,
            master: None,
        },
        Service::Dpv1 => points_at(0),
        Service::ExtUserPrm => points_at(1),
        Service::SetSlaveAdr => points_at(2),
        Service::RdInp => points_at(3),
        Service::RdOutp => points_at(4),
        Service::GlobalControl => points_at(5),
        Service::GetCfg => points_at(6),
        Service::SlaveDiag => points_at(7),
        Service::SetPrm => points_at(8),
        Service::ChkCfg => points_at(9),
    }
}
