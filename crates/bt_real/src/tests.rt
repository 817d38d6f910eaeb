//! The devices, on this machine.
mod disk;
mod streams;
mod tcp;
