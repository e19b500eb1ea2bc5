//! Tests through the top call: of scripts over streams that fail, and of `serve`, each with sessions and workers on threads of their own.

mod faults;
mod holding;
mod looks;
mod loopback;
mod requests;
mod scene;
mod web_sockets;
mod workers;
