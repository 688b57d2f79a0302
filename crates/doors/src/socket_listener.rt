//! A listener at a socket.

ghost use Rattle.std.specs.Prelude.{◌≡◌, ◌<◌, IfOk, OnOk, OnErr, Err, Option, None};
ghost use Rattle.outside.specs.Faults.{CountsWhere, one_more};
ghost use Rattle.doors.specs.Visits.{Doors, Binds, IsNew, Lends};
ghost use Rattle.doors.specs.Sockets.{accept_faults, door_idle, listen_faults, listen_idle};
ghost use Rattle.outside.specs.declared.trouble.Trouble.TheVariants as trouble;

use crate::listener::Listener;
use crate::socket_door::{SocketDoor, trouble_of};
use outside::Trouble;
use std::alloc::AllocGlobal;
use std::net::{Net, TcpListener, TcpStream};
use std::time::Clock;

/// A listener at one socket, which its doors share. It counts the calls that failed and the doors of which a call had
/// failed, and tells nothing of connections.
#[derive(Drop)]
pub struct SocketListener<'a, R: Net<Listener = TcpListener, Stream = TcpStream>> {
    rt: &'a R,
    socket: Option<TcpListener>,
    idle: Option<u64>,
    faults: u64,
}

impl<'a, R: Net<Listener = TcpListener, Stream = TcpStream>> SocketListener<'a, R> {
    /// A listener at no address yet.
    pub fn new(rt: &'a R) -> SocketListener<'a, R>
        ensures { listen_faults result ≡ 0 }
    {
        SocketListener {
            rt,
            socket: None,
            idle: None,
            faults: 0,
        }
    }

    /// The port at which it listens, where the system tells one.
    pub fn port(&self) -> Option<u16> {
        match &self.socket {
            Some(socket) => Some(socket.local_addr().ok()?.port()),
            None => None,
        }
    }

    // Another descriptor of the socket.
    fn shared_socket(&self) -> Result<TcpListener, Trouble> {
        let Some(socket) = &self.socket else {
            return Err(Trouble::Failed);
        };
        match socket.try_clone() {
            Ok(socket) => Ok(socket),
            Err(error) => Err(trouble_of(&error)),
        }
    }
}

impl<'a, R: Net<Listener = TcpListener, Stream = TcpStream> + Clock + AllocGlobal + Sync> Listener
    for SocketListener<'a, R> {
    ghost use Rattle.doors.specs.Sockets.{listen_faults, listen_idle};

    type Door = SocketDoor<'a, R, TcpListener>;

    ghost doors = { λ s. None };

    ghost faults = { λ s. listen_faults s };

    ghost idle = { λ s. listen_idle s };

    /// Listens at a host's name or address and a port, as `127.0.0.1:7000`.
    fn bind(&mut self, address: &str) -> Result<(), Trouble>
        ensures binds { OnOk result (Binds address.now None None) }
        ensures nothing { OnErr result (◌≡◌ {A = Option Doors} None None) }
        ensures counts { CountsWhere (result ≡ Err trouble.Failed) (listen_faults self.old) (listen_faults self.new) }
        ensures waits { listen_idle self.new ≡ listen_idle self.old }

        ensures no_fault { OnOk result (listen_faults self.new ≡ listen_faults self.old) }
        ensures fault { result ≡ Err trouble.Failed → listen_faults self.new ≡ one_more (listen_faults self.old) }
    {
        match TcpListener::bind(self.rt, address) {
            Ok(socket) => {
                self.socket = Some(socket);
                Ok(())
            }
            Err(error) => match trouble_of(&error) {
                Trouble::Memory => Err(Trouble::Memory),
                Trouble::Failed => {
                    self.faults = self.faults.saturating_add(1);
                    Err(Trouble::Failed)
                }
            },
        }
    }

    /// A door at the socket, whose connections' calls may wait as it was told. It fails where nothing is listened at yet, and
    /// where the system does.
    fn door(&mut self) -> Result<SocketDoor<'a, R, TcpListener>, Trouble>
        ensures new { IfOk result (λ d. IsNew None × (accept_faults d ≡ 0)) }
        ensures lends { IfOk result (λ d. Lends None None None) }
        ensures nothing { OnErr result (◌≡◌ {A = Option Doors} None None) }
        ensures counts { CountsWhere (result ≡ Err trouble.Failed) (listen_faults self.old) (listen_faults self.new) }
        ensures waits { listen_idle self.new ≡ listen_idle self.old }

        ensures no_fault { OnOk result (listen_faults self.new ≡ listen_faults self.old) }
        ensures fault { result ≡ Err trouble.Failed → listen_faults self.new ≡ one_more (listen_faults self.old) }
        ensures door_waits { IfOk result (λ d. door_idle d ≡ listen_idle self.old) }
    {
        match self.shared_socket() {
            Ok(socket) => Ok(SocketDoor::new(self.rt, self.rt.alloc(), socket, self.idle)),
            Err(Trouble::Memory) => Err(Trouble::Memory),
            Err(Trouble::Failed) => {
                self.faults = self.faults.saturating_add(1);
                Err(Trouble::Failed)
            }
        }
    }

    /// Lets the door go. The socket listens on.
    fn take_back(&mut self, door: SocketDoor<'a, R, TcpListener>)
        ensures counts { CountsWhere (0 < accept_faults door.entry) (listen_faults self.old) (listen_faults self.new) }
        ensures waits { listen_idle self.new ≡ listen_idle self.old }
    {
        if door.has_failed() {
            self.faults = self.faults.saturating_add(1);
        }
    }

    /// Keeps the seconds for the doors that it hands out from now on.
    fn set_idle(&mut self, seconds: Option<u64>)
        ensures told { listen_idle self.new ≡ seconds }
        ensures uncounted { listen_faults self.new ≡ listen_faults self.old }
    {
        self.idle = seconds;
    }
}
