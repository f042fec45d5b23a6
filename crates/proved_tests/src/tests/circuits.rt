mod analyses;
mod chances;
mod drawn;
mod parts;
