use crate::FileName;
use port_config::Config;
use port_model::Reason;

/// The declaration of a process. Lines count from 1.
#[derive(Drop)]
pub struct ProcessDecl {
    pub line: u32,
    pub name: Reason,
}

/// The declaration of a port. Its owner goes by its place in the order of declaration, from 0.
#[derive(Drop)]
pub struct PortDecl {
    pub line: u32,
    pub name: Reason,
    pub owner: u32,
    /// The name of a kind of driver.
    pub driver: Reason,
    pub config: Config,
}

/// A file to which the data is written that a process got from a port. Both go by their places in the order of declaration, from 0.
#[derive(Drop)]
pub struct SaveDecl {
    pub line: u32,
    pub process: u32,
    pub port: u32,
    pub file: FileName,
}
