use ch_base::Text;

/// An IPv4 address and a port, 1 to 65,535.
#[derive(Clone, Copy, Debug, PartialEq, Eq)]
pub struct Address {
    pub host: [u8; 4],
    pub port: u16,
}

/// Where webhooks are posted over HTTP: `http://<host>:<port><path>`. The port is 1 to 65,535, and the
/// path begins with its slash.
#[derive(Debug, PartialEq, Eq, Drop)]
pub struct Target {
    pub host: Text,
    pub port: u16,
    pub path: Text,
}
