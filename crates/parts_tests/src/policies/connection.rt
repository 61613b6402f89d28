//! Connections to addresses, over a network that is made up.

use cc_connections::{Address, ConnectFault, Host, HostName, connect};
use std::io;
use std::io::ErrorKind;
use std::net::{IpAddr, Ipv4Addr, Net, SocketAddr, TcpListener, TcpStream};
use std::process::Abort;
use std::sync::atomic::{AtomicU64, Ordering};
use std::time::Duration;

// A network that knows these machines by one name, 10.0.0.N each, and takes no connection: those of even numbers refuse it at
// once, the others let it wait.
#[derive(Drop)]
struct Refusing<'a> {
    machines: &'a [u8],
    // How many connections were tried.
    tries: AtomicU64,
}

fn machine(number: u8) -> Ipv4Addr {
    Ipv4Addr::new(10, 0, 0, number)
}

impl Net for Refusing<'_> {
    type Stream = TcpStream;

    type Listener = TcpListener;

    fn bind(&self, _addr: SocketAddr) -> io::Result<TcpListener> {
        Err(ErrorKind::Unsupported.into())
    }

    fn connect(&self, _addr: SocketAddr) -> io::Result<TcpStream> {
        Err(ErrorKind::Unsupported.into())
    }

    fn connect_timeout(&self, addr: SocketAddr, _timeout: Duration) -> io::Result<TcpStream> {
        self.tries.fetch_add(1, Ordering::SeqCst);
        match addr.ip() {
            IpAddr::V4(ip) if ip.octets()[3] % 2 == 0 => {
                Err(ErrorKind::ConnectionRefused.into())
            }
            _ => Err(ErrorKind::TimedOut.into()),
        }
    }

    fn lookup_host(&self, _host: &str, port: u16, found: &mut [SocketAddr]) -> io::Result<usize> {
        if self.machines.is_empty() {
            return Err(ErrorKind::NotFound.into());
        }
        for (place, number) in found.iter_mut().zip(self.machines) {
            *place = SocketAddr::from((machine(*number), port));
        }
        Ok(found.len().min(self.machines.len()))
    }
}

// The machines behind a name, and why none of them is connected to.
const MACHINES: [(&[u8], ConnectFault); 6] = [
    (&[], ConnectFault::Unknown),
    (&[2], ConnectFault::Refused),
    (&[1], ConnectFault::Mute),
    (&[2, 4, 6], ConnectFault::Refused),
    (&[2, 1], ConnectFault::Mute),
    (&[1, 2], ConnectFault::Mute),
];

#[test]
fn all_places_of_a_name_are_tried_and_an_ip_is_not_looked_up(rt: HostRuntime) {
    let name = HostName::new("node-1").expect(&rt, "a name");
    let address = Address {
        host: Host::Name(name),
        port: 7001,
    };
    for &(machines, fault) in &MACHINES {
        let net = Refusing {
            machines,
            tries: AtomicU64::new(0),
        };
        let tried = connect(&net, &address, Duration::from_secs(1)).err();
        let tries = net.tries.load(Ordering::SeqCst);
        drop(net);
        assert!(rt; tried == Some(fault) && tries == machines.len() as u64);
    }
    let net = Refusing {
        machines: &[],
        tries: AtomicU64::new(0),
    };
    let address = Address::from(SocketAddr::from((machine(2), 7001)));
    let tried = connect(&net, &address, Duration::from_secs(1)).err();
    drop(net);
    assert!(rt; tried == Some(ConnectFault::Refused));
}
