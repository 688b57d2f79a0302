//! Two clients of two seats, over a bound socket.

use crate::program::so;
use crate::served_seats::history_served;
use doors::{Listener, SocketListener};
use outside::Trouble;
use seats::Place;
use std::alloc::AllocGlobal;
use std::io;
use std::io::{Read, Write};
use std::net::{Net, Shutdown, TcpListener, TcpStream};
use std::sync::Wait;
use std::test::Fail;
use std::thread::{Threads, join};
use std::time::Clock;

// Whether a client that writes these lines reads exactly these replies.
fn is_answered(client: &mut TcpStream, lines: &str, replies: &str) -> io::Result<bool> {
    client.write_all(lines.as_bytes())?;
    let mut buffer = [0; 256];
    let Some(room) = buffer.get_mut(..replies.len()) else {
        return Ok(false);
    };
    client.read_exact(room)?;
    Ok(*room == *replies.as_bytes())
}

// Whether the server closes the connection of a client that writes no more, with no byte before.
fn is_closed(client: &mut TcpStream) -> io::Result<bool> {
    client.shutdown(Shutdown::Write)?;
    Ok(client.read(&mut [0; 16])? == 0)
}

// Each is answered from what the other has changed.
fn each_is_answered(a: &mut TcpStream, b: &mut TcpStream) -> io::Result<bool> {
    Ok(
        is_answered(
            a,
            "HELLO A KA\nTRADE A B P 10 2026-03-02\n",
            "ok 0 hello A\nok 1 trade 1\n",
        )? && is_answered(b, "HELLO B KB\nAFFIRM 1\n", "ok 1 hello B\nok 2 live 1\n")?
            && is_answered(a, "NETS P\n", "ok 2 nets 10 0 10\n")?
            && is_answered(b, "NETS P\n", "ok 2 nets 0 10 -10\n")?
            && is_closed(b)?
            && is_closed(a)?,
    )
}

// Two clients at once.
fn both_are_answered<R: Net<Listener = TcpListener, Stream = TcpStream>>(
    rt: &R,
    port: u16,
) -> io::Result<bool> {
    let mut a = TcpStream::connect(rt, ("127.0.0.1", port))?;
    let mut b = TcpStream::connect(rt, ("127.0.0.1", port))?;
    each_is_answered(&mut a, &mut b)
}

fn two_clients_are_served<
    R: Threads
        + Wait
        + Clock
        + Sync
        + AllocGlobal
        + Net<Listener = TcpListener, Stream = TcpStream>,
>(rt: &R) -> Result<bool, Trouble> {
    let alloc = rt.alloc();
    let mut listener = SocketListener::new(rt);
    listener.bind("127.0.0.1:0")?;
    let Some(port) = listener.port() else {
        return Ok(false);
    };
    let mut places = [Place::new(listener.door()?), Place::new(listener.door()?)];
    let (history, answered) = join(
        rt,
        || history_served(rt, alloc, &mut places, 1),
        || both_are_answered(rt, port),
    );
    Ok(matches!(history, Ok(2)) && matches!(answered, Ok(true)))
}

#[test]
fn two_clients_at_a_socket_are_answered_beside_one_another(rt: HostRuntime) -> Result<(), Fail> {
    let served = two_clients_are_served(&rt) == Ok(true);
    so(served, "the clients are answered otherwise")
}
