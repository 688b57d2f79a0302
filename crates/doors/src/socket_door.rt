//! A door at a socket.

ghost use Rattle.std.specs.Prelude.{◌≡◌, nat_lt, IsSome, IfOk, IfSome, OnOk, OnErr, Ok, Err, Option, None};
ghost use Rattle.outside.specs.Faults.{CountsWhere, one_more};
ghost use Rattle.outside.specs.Streams.{read_faults, write_faults};
ghost use Rattle.doors.specs.Visits.{Visits, IsOver, Opens};
ghost use Rattle.doors.specs.Sockets.{accept_faults, door_idle};
ghost use Rattle.outside.specs.declared.trouble.Trouble.TheVariants as trouble;

use crate::direction::Direction;
use crate::door::Door;
use crate::patience::Patience;
use outside::{StreamSink, StreamSource, Trouble};
use std::alloc::{AllocError, Global};
use std::io;
use std::io::ErrorKind;
use std::net::{OpenListener, TcpStream};
use std::time::{Clock, Duration};

/// A door at a socket that listens. Other doors may share the socket: each connection comes to one of them. It counts
/// the calls that failed, and tells nothing of its connections.
#[derive(Drop)]
pub struct SocketDoor<'a, R: Clock, L: OpenListener + Drop> {
    rt: &'a R,
    alloc: Global,
    socket: L,
    idle: Option<u64>,
    faults: u64,
}

/// What a fault of the system is to a door or a listener.
pub fn trouble_of(error: &io::Error) -> Trouble {
    if error.kind() == ErrorKind::OutOfMemory {
        return Trouble::Memory;
    }
    Trouble::Failed
}

// The two directions of a connection.
type Streams = (StreamSource<Direction>, StreamSink<Direction>);

// What is written goes out at once; where the system refuses that, it goes out later, and nothing else differs.
fn set_up(stream: &TcpStream, idle: Option<u64>) -> io::Result<()> {
    let _ = stream.set_nodelay(true);
    let wait = idle.map(Duration::from_secs);
    if wait.is_some() {
        stream.set_read_timeout(wait)?;
        stream.set_write_timeout(wait)?;
    }
    Ok(())
}

impl<'a, R: Clock, L: OpenListener<Stream = TcpStream> + Drop> SocketDoor<'a, R, L> {
    /// A door at this socket. A call of a connection's streams that waits for as many seconds as `idle` says, in which nothing
    /// comes or nothing goes, fails; without it calls wait without end.
    pub fn new(rt: &'a R, alloc: Global, socket: L, idle: Option<u64>) -> SocketDoor<'a, R, L>
        ensures faults { accept_faults result ≡ 0 }
        ensures waits { door_idle result ≡ idle }
    {
        SocketDoor {
            rt,
            alloc,
            socket,
            idle,
            faults: 0,
        }
    }

    /// Whether a call for a connection failed.
    pub fn has_failed(&self) -> bool
        ensures { result ≡ nat_lt 0 (accept_faults self.now) }
    {
        self.faults > 0
    }

    // The next connection. One that its peer or the network broke off before it was accepted is passed over, and where the
    // machine is short, the call is tried again for a minute.
    fn accept_one(&self) -> Result<TcpStream, Trouble> {
        let mut patience = Patience::new();
        for _ in 0..u64::MAX {
            match self.socket.accept() {
                Ok((stream, _)) => return Ok(stream),
                Err(error) => {
                    if !patience.tries_again(self.rt, &error) {
                        return Err(trouble_of(&error));
                    }
                }
            }
        }
        Err(Trouble::Failed)
    }

    // The next connection's two directions.
    fn next_streams(&self) -> Result<Streams, Trouble>
        ensures { IfOk result (λ c. (read_faults c.0 ≡ 0) × (write_faults c.1 ≡ 0)) }
    {
        let stream = self.accept_one()?;
        if let Err(error) = set_up(&stream, self.idle) {
            return Err(trouble_of(&error));
        }
        match Direction::both(self.alloc, stream) {
            Ok((input, output)) => Ok((StreamSource::new(input), StreamSink::new(output))),
            Err(AllocError) => Err(Trouble::Memory),
        }
    }
}

impl<'a, R: Clock + Sync, L: OpenListener<Stream = TcpStream> + Drop + Send> Door
    for SocketDoor<'a, R, L> {
    ghost use Rattle.doors.specs.Sockets.{accept_faults};

    type In = StreamSource<Direction>;

    type Out = StreamSink<Direction>;

    ghost visits = { λ d. None };

    ghost faults = { λ d. accept_faults d };

    /// Waits for the next connection to the socket. It fails where the system does, and never tells that none comes. Where
    /// the machine is short of descriptors or memory, or a rule of its network forbids a connection, it waits a moment and
    /// tries again, for at most a minute.
    fn accept(&mut self) -> Result<Option<Streams>, Trouble>
        ensures opens { IfOk result (λ r. IfSome r (λ c. Opens None None None None)) }
        ensures fresh { IfOk result (λ r. IfSome r (λ c. (read_faults c.0 ≡ 0) × (write_faults c.1 ≡ 0))) }
        ensures over { result ≡ Ok None → IsOver None }
        ensures same { result ≡ Ok None → ◌≡◌ {A = Option Visits} None None }
        ensures nothing { OnErr result (◌≡◌ {A = Option Visits} None None) }
        ensures counts { CountsWhere (result ≡ Err trouble.Failed) (accept_faults self.old) (accept_faults self.new) }

        ensures some { IfOk result (λ r. IsSome r) }
        ensures no_fault { OnOk result (accept_faults self.new ≡ accept_faults self.old) }
        ensures fault { result ≡ Err trouble.Failed → accept_faults self.new ≡ one_more (accept_faults self.old) }
    {
        match self.next_streams() {
            Ok(streams) => Ok(Some(streams)),
            Err(Trouble::Memory) => Err(Trouble::Memory),
            Err(Trouble::Failed) => {
                self.faults = self.faults.saturating_add(1);
                Err(Trouble::Failed)
            }
        }
    }

    /// Closes the connection.
    fn give_back(&mut self, _input: StreamSource<Direction>, _output: StreamSink<Direction>) {}
}
