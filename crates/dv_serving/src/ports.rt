//! Serving at a port of this machine's own network.

use crate::listen::{Telling, listen_on};
use crate::serve::{BlockingPort, serve_on};
use dv_host::HostFault;
use dv_streams::{CountedWriter, TextOut};
use dv_wire::Hub;
use dv_words::fault::DocdFault;
use std::io;
use std::io::BufWriter;
use std::net::{Ipv4Addr, Net, SocketAddr, SocketAddrV4, TcpListener, TcpStream};

/// Serves so many connections at a port, one after the other, and writes to standard output what `serve_on` does, after a line with
/// the address. Fails with `Serve` if the port or a connection can't be had, with `Write` if a line can't be written, and with
/// `NoMemory` if there is no memory for the writer's buffer.
pub fn serve_at<R>(rt: &R, hub: &mut Hub, port: u16, connections: u32) -> Result<(), DocdFault>
where
    R: Print + Net<Listener = TcpListener, Stream = TcpStream> + AllocGlobal,
{
    let alloc = rt.alloc();
    let address = address_of(port);
    let listener = TcpListener::bind(rt, address).map_err(|_| DocdFault::Serve)?;
    let writer = BufWriter::new(alloc, io::writer(rt)).map_err(|_| DocdFault::NoMemory)?;
    let mut writer = CountedWriter::of(writer);
    announce(&mut writer, address)?;
    serve_on(
        alloc,
        hub,
        &mut BlockingPort::of(listener),
        connections,
        &mut writer,
    )?;
    Ok(())
}

/// Serves connections at a port, many of them at once: so many, or for good. It writes to standard output what `Telling` does, after
/// a line with the address. Fails with `Serve` if the port or a connection can't be had, with `Write` if a line can't be written, and
/// with `NoMemory` if memory runs out for the writer's buffer or for serving.
pub fn listen_at<R: Print + Net + AllocGlobal>(
    rt: &R,
    hub: &mut Hub,
    port: u16,
    connections: Option<u32>,
) -> Result<(), DocdFault> {
    let alloc = rt.alloc();
    let outside = dv_net::Port::bind(rt, alloc, port).map_err(|_| DocdFault::Serve)?;
    let writer = BufWriter::new(alloc, io::writer(rt)).map_err(|_| DocdFault::NoMemory)?;
    let mut writer = CountedWriter::of(writer);
    announce(&mut writer, address_of(port))?;
    let mut outside = Telling::of(outside, writer);
    let connections = match connections {
        Some(connections) => connections as u64,
        None => u64::MAX,
    };
    let told = listen_on(alloc, hub, &mut outside, connections);
    if outside.has_failed() {
        return Err(DocdFault::Write);
    }
    match told {
        Ok(()) => Ok(()),
        Err(HostFault::NoMemory) => Err(DocdFault::NoMemory),
        Err(HostFault::Wait | HostFault::Turns) => Err(DocdFault::Serve),
    }
}

/// A port of this machine's own network.
fn address_of(port: u16) -> SocketAddr {
    SocketAddr::V4(SocketAddrV4::new(Ipv4Addr::LOCALHOST, port))
}

/// Writes the line `serving ADDRESS`, and flushes it. Fails with `Write` if the writer does.
fn announce<W: TextOut>(writer: &mut W, address: SocketAddr) -> Result<(), DocdFault> {
    write!(writer, "serving {address}\n").map_err(|_| DocdFault::Write)?;
    writer.flush().map_err(|_| DocdFault::Write)
}
