mod calls;
mod growths;
mod lent;
mod long;
