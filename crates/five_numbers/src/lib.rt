// The five numbers of a packet's header as one header, in wire order.
#![tactic(auto)]

mod headers;

pub use headers::header;

// The five numbers of a packet's header.
#[derive(Clone, Copy)]
pub struct Numbers {
    pub source: u32,
    pub destination: u32,
    pub source_port: u32,
    pub destination_port: u32,
    pub protocol: u32,
}
