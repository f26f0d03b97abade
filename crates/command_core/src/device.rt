//! Devices: where bytes come from and where they go.

/// A read or a write failed.
#[derive(Clone, Copy, Drop)]
pub struct DeviceFault;
