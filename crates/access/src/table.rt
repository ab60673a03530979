// The services with their access points, and the list of them: what a row of it holds, and what a search in it finds.
use fdl::Sap;

// The services of DP. Data_Exchange alone has no access points.
#[derive(Clone, Copy, PartialEq, Eq)]
pub enum Service {
    DataExchange,
    Dpv1,
    ExtUserPrm,
    SetSlaveAdr,
    RdInp,
    RdOutp,
    GlobalControl,
    GetCfg,
    SlaveDiag,
    SetPrm,
    ChkCfg,
}

// The slave's access points, by which the services go; Data_Exchange has none, and 0 stands for it.
pub const DATA_EXCHANGE: u8 = 0;

pub const DPV1: u8 = 51;

pub const EXT_USER_PRM: u8 = 53;

pub const SET_SLAVE_ADR: u8 = 55;

pub const RD_INP: u8 = 56;

pub const RD_OUTP: u8 = 57;

pub const GLOBAL_CONTROL: u8 = 58;

pub const GET_CFG: u8 = 59;

pub const SLAVE_DIAG: u8 = 60;

pub const SET_PRM: u8 = 61;

pub const CHK_CFG: u8 = 62;

// The master's access point, of every service but DPV1.
pub const MASTER: u8 = 62;

// A pair of access points, the slave's and the master's, and its service.
#[derive(Clone, Copy)]
pub struct Row {
    pub slave: u8,
    pub master: u8,
    pub service: Service,
}

// The access points of a service, the slave's and the master's.
#[derive(Clone, Copy)]
pub struct Points {
    pub slave: Sap,
    pub master: Sap,
}
