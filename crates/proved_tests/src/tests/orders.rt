mod devices;
mod memory;
mod rows;
mod worked;
mod writers;
