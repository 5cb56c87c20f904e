// Hosts from their start to their end, by worked examples.
mod commands;
mod epochs;
mod limits;
mod lone_host;
mod setup;
